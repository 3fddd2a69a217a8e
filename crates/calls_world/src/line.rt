//! The lines of a file of tests, as their parts.
use crate::memory;
use crate::words::{number, split_word};
use std::alloc::{AllocError, Global};

/// A line that is no remark: the head of a test, or a call and the reply that is wanted.
#[derive(Clone, Copy)]
pub struct Line<'a> {
    pub number: u64,
    pub call: &'a str,
    /// The first word of the call, and those behind it.
    pub word: &'a str,
    pub rest: &'a str,
    pub reply: &'a str,
    /// The reply must not come.
    pub must_differ: bool,
    /// How many bytes the call may ask for at most, if the line says so.
    pub within: Option<usize>,
}

// `within N CALL`.
fn split_within(call: &str) -> Option<(usize, &str)> {
    let (most, call) = call.strip_prefix("within ")?.split_once(' ')?;
    Some((number(most)?, call))
}

// A line without a reply wants `ok`.
fn parse(number: u64, line: &str) -> Line<'_> {
    let (call, reply) = line.split_once(" => ").unwrap_or((line, "ok"));
    let differing = call.strip_prefix("differs ");
    let call = differing.unwrap_or(call);
    let (within, call) = match split_within(call) {
        Some((most, call)) => (Some(most), call),
        None => (None, call),
    };
    let (word, rest) = split_word(call);
    Line {
        number,
        call,
        word,
        rest,
        reply,
        must_differ: differing.is_some(),
        within,
    }
}

/// Returns the lines of a text. One that begins with a space has the number of the `each` before it. Fails if memory is
/// refused twice.
pub fn parse_lines(alloc: Global, text: &str) -> Result<Vec<Line<'_>>, AllocError> {
    let mut lines = Vec::new(alloc);
    let mut number = 0u64;
    for line in text.lines() {
        let call = line.strip_prefix(' ');
        if call.is_none() {
            number = number.saturating_add(1);
        }
        let call = call.unwrap_or(line);
        let is_remark = call.is_empty() || call.starts_with('#');
        if !is_remark && !memory::push(&mut lines, parse(number, call)) {
            return Err(AllocError);
        }
    }
    Ok(lines)
}

impl Line<'_> {
    /// Whether the line begins an object.
    pub fn begins_object(&self) -> bool {
        match self.word {
            "bounded_set" | "set" | "bounded_queue" | "queue" | "join" | "try_join" => true,
            "bounded_merge" | "merge" | "for_each" | "try_for_each" => true,
            "buffered_unordered" | "buffered_ordered" => true,
            "try_buffered_unordered" | "try_buffered_ordered" => true,
            word => word.starts_with("in_flight"),
        }
    }

    /// Whether the object is dropped before this line is done.
    pub fn ends_object(&self) -> bool {
        self.word == "test" || self.word == "drop" || self.begins_object()
    }
}
