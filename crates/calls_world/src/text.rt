//! A text that grows.
use std::alloc::Global;
use std::fmt::{self, Display, Write};

/// A text that grows. A request for memory that is refused is made once more; if that is refused too, the text says
/// that it has failed, and is shorter.
#[derive(Drop)]
pub struct Text {
    pub string: String,
    pub has_failed: bool,
}

impl Write for Text {
    fn write_str(&mut self, words: &str) -> fmt::Result {
        if self.string.push_str(words).is_err() && self.string.push_str(words).is_err() {
            self.has_failed = true;
        }
        Ok(())
    }
}

impl Text {
    pub fn new(alloc: Global) -> Text {
        Text {
            string: String::new(alloc),
            has_failed: false,
        }
    }

    /// Empties the text.
    pub fn clear(&mut self) {
        self.string.clear();
    }

    /// Appends what the value prints.
    pub fn append<D: Display + Drop>(&mut self, value: D) {
        if self.write(value).is_err() {
            self.has_failed = true;
        }
    }

    /// Appends it behind a space if a word stands before.
    pub fn append_word<D: Display + Drop>(&mut self, word: D) {
        let text = self.string.as_str();
        if !text.is_empty() && !text.ends_with(' ') {
            self.append(" ");
        }
        self.append(word);
    }

    /// Appends so many numbers from the first on: three and more as `first..last`.
    pub fn append_run(&mut self, first: u64, count: usize) {
        let last = first.saturating_add(count.saturating_sub(1) as u64);
        self.append_word(first);
        match count {
            0 | 1 => {}
            2 => self.append_word(last),
            _ => self.append(format_args!("..{last}")),
        }
    }

    /// Appends the numbers, those that follow one another as runs.
    pub fn append_numbers(&mut self, numbers: &[u64]) {
        for run in numbers.chunk_by(|number, next| number.checked_add(1) == Some(*next)) {
            if let Some(first) = run.first() {
                self.append_run(*first, run.len());
            }
        }
    }
}
