//! What is counted over the lines of a file, and which replies differ from those that stand there.
use crate::line::Line;
use crate::text::Text;
use std::alloc::Global;

// Of a `?` either word is right.
fn is_right_word(wanted: &str, given: &str) -> bool {
    wanted == given || (wanted == "?" && (given == "woken" || given == "quiet"))
}

fn is_right(wanted: &str, given: &str) -> bool {
    let mut words = given.split(' ');
    for wanted in wanted.split(' ') {
        match words.next() {
            Some(word) if is_right_word(wanted, word) => {}
            _ => return false,
        }
    }
    words.next().is_none()
}

/// What is counted, and what differs.
#[derive(Drop)]
pub struct Report {
    file: Text,
    test: Text,
    tests: u64,
    calls: u64,
    differences: u64,
    refused: u64,
    /// A reply of this test differs: the rest of the test is passed over.
    pub test_is_over: bool,
    /// The first difference of the file.
    pub first: Text,
    /// What is to be printed.
    pub text: Text,
}

impl Report {
    pub fn new(alloc: Global) -> Report {
        Report {
            file: Text::new(alloc),
            test: Text::new(alloc),
            tests: 0,
            calls: 0,
            differences: 0,
            refused: 0,
            test_is_over: false,
            first: Text::new(alloc),
            text: Text::new(alloc),
        }
    }

    pub fn begin_file(&mut self, file: &str) {
        self.file.append(file);
    }

    pub fn begin_test(&mut self, name: &str) {
        self.tests = self.tests.saturating_add(1);
        self.test_is_over = false;
        self.test.clear();
        self.test.append(name);
    }

    /// Memory was refused to a call, which was made once more.
    pub fn count_again(&mut self, is_well: bool) {
        if is_well {
            self.refused = self.refused.saturating_add(1);
        }
    }

    /// Makes the call, and makes it once more if it fails: it is counted if that is well.
    pub fn twice<T, E: Drop, F: Fn() -> Result<T, E>>(&mut self, call: F) -> Result<T, E>
        requires { F.IsAlwaysCallable call }
    {
        match call() {
            Ok(made) => Ok(made),
            Err(_) => {
                let made = call();
                self.count_again(made.is_ok());
                made
            }
        }
    }

    /// The exit status of the file: 1 if a reply differs, otherwise 3 if memory was refused to a call, otherwise 0.
    pub fn status(&self) -> u8 {
        if self.differences > 0 {
            1
        } else if self.refused > 0 {
            3
        } else {
            0
        }
    }

    /// Whether the report lacks words, since there was no memory for them.
    pub fn has_failed(&self) -> bool {
        self.text.has_failed || self.first.has_failed || self.test.has_failed
    }

    /// Compares a reply with what was wanted, or with what must not come.
    pub fn compare(&mut self, line: &Line<'_>, given: &str) {
        self.calls = self.calls.saturating_add(1);
        if is_right(line.reply, given) != line.must_differ {
            return;
        }
        self.test_is_over = true;
        let (file, test) = (self.file.string.as_str(), self.test.string.as_str());
        let want = if line.must_differ {
            "want another than"
        } else {
            "want"
        };
        self.text.append(format_args!("{file}:{}: {test}: {}\n", line.number, line.call));
        self.text.append(format_args!("    {want} {}\n    gave {given}\n", line.reply));
        if self.differences == 0 {
            self.first.append(self.text.string.as_str());
        }
        self.differences = self.differences.saturating_add(1);
    }

    /// Appends the last line on the file.
    pub fn append_counts(&mut self) {
        let (tests, calls, differences) = (self.tests, self.calls, self.differences);
        let file = self.file.string.as_str();
        self.text.append(format_args!(
            "{file}: {tests} tests, {calls} calls, {differences} differ\n"
        ));
    }
}
