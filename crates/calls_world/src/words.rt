//! The words of a line, and lines that stand for many calls: `each 1..70: wake {} => woken; push {2}`.
use crate::memory;
use crate::text::Text;
use std::alloc::{AllocError, Global};
use std::ops::Range;

/// The number that a word writes.
pub fn number(word: &str) -> Option<usize> {
    word.parse::<usize>().ok()
}

/// The numbers that a word names, one or more: `7`, or `1..70` for each of these.
pub fn span(word: &str) -> Option<Range<usize>> {
    let (first, last) = word.split_once("..").unwrap_or((word, word));
    let (first, end) = (number(first)?, number(last)?.checked_add(1)?);
    if first < end { Some(first..end) } else { None }
}

/// The first word, and the rest.
pub fn split_word(words: &str) -> (&str, &str) {
    words.split_once(' ').unwrap_or((words, ""))
}

/// What the words of a line list.
pub trait Listed: Copy + Drop {
    /// The first that a word names, and how many it names.
    fn read(word: &str) -> Option<(Self, usize)>;

    /// What the same word names so many places behind this.
    fn after(self, places: usize) -> Self;
}

impl Listed for usize {
    fn read(word: &str) -> Option<(usize, usize)> {
        let numbers = span(word)?;
        Some((numbers.start, numbers.end.saturating_sub(numbers.start)))
    }

    fn after(self, places: usize) -> usize {
        self.saturating_add(places)
    }
}

fn push_word<T: Listed>(list: &mut Vec<T>, word: &str) -> Option<()> {
    let (first, count) = T::read(word)?;
    for places in 0..count {
        if !memory::push(list, first.after(places)) {
            return None;
        }
    }
    Some(())
}

/// Adds what the words name, in order. `None` if one of them names nothing.
pub fn push_words<T: Listed>(list: &mut Vec<T>, words: &str, gap: &str) -> Option<()> {
    if words.is_empty() {
        return Some(());
    }
    for word in words.split(gap) {
        push_word(list, word)?;
    }
    Some(())
}

// `{}` is the number, and `{2}` the number plus 2.
fn append_filled(text: &mut Text, call: &str, base: usize) {
    text.append("\n ");
    for part in call.split('{') {
        match part.split_once('}') {
            Some((more, rest)) => {
                let filled = base.saturating_add(number(more).unwrap_or(0));
                text.append(format_args!("{filled}{rest}"));
            }
            None => text.append(part),
        }
    }
}

fn append_calls(text: &mut Text, calls: &str, base: usize) {
    for call in calls.split("; ") {
        append_filled(text, call, base);
    }
}

fn append_each(text: &mut Text, numbers: &[usize], calls: &str) {
    text.append("#");
    for base in numbers {
        append_calls(text, calls, *base);
    }
}

// A line whose words are no numbers stays as it is, and is no call.
fn append_line(text: &mut Text, numbers: &mut Vec<usize>, line: &str) {
    numbers.clear();
    match line
        .strip_prefix("each ")
        .and_then(|rest| rest.split_once(": "))
    {
        Some((words, calls)) if push_words(numbers, words, " ").is_some() => {
            append_each(text, numbers.as_slice(), calls);
        }
        _ => text.append(line),
    }
    text.append("\n");
}

/// Returns the lines of a file, with a remark and then its calls for each line that begins with `each`. A space begins
/// each of these calls. Fails if memory is refused twice.
pub fn spread(alloc: Global, lines: &str) -> Result<String, AllocError> {
    let mut text = Text::new(alloc);
    let mut numbers = Vec::new(alloc);
    for line in lines.lines() {
        append_line(&mut text, &mut numbers, line);
    }
    if text.has_failed {
        return Err(AllocError);
    }
    Ok(text.string)
}
