//! What a line of a script asks for.
ghost use Rattle.std.specs.Prelude.{◌≡◌, ◌≢◌, ℕ, ◌^◌, ◌<◌, ◌++◌, ◌↔◌, IsTrue, IfSome, IfNone};
ghost use Rattle.std.specs.Fmt.{decimal};
ghost use Rattle.fbuf_lines.specs.Command.{LineAsksFor, HasNoSpace, StartsAsNumber};
ghost use Rattle.fbuf_lines.specs.Command.{rest_text, spaced_number};

use crate::ready_after::ReadyAfter;
use memchr::memchr;

/// What a line asks for, whether or not it can be carried out now.
#[derive(Clone, Copy, Debug, PartialEq, Eq)]
pub enum Command {
    /// `unordered C`: begins a bounded set of this capacity.
    Unordered(usize),
    /// `ordered C`: begins an ordered queue of this capacity.
    Ordered(usize),
    /// `growing C`: begins a growing set, whose first group has this capacity.
    Growing(usize),
    /// `steps C`: begins a machine of single steps of this capacity.
    Steps(usize),
    /// `limit L`: sets how many ready slots one poll takes at most, in each set that is begun later.
    Limit(usize),
    /// `push V K`: pushes the future that is pending K times, and then ready with V.
    Push(ReadyAfter),
    /// `back V K`: adds such a future after all others.
    Back(ReadyAfter),
    /// `front V K`: adds such a future before all others.
    Front(ReadyAfter),
    /// `wake I`: marks a slot.
    Wake(usize),
    /// `poll`: polls once.
    Poll,
    /// `len`: asks how many are held.
    Len,
    /// `mark S I`: a wake seat begins to wake a slot.
    Mark { seat: usize, slot: usize },
    /// `go S`: a wake seat makes the next step of its wake.
    Go { seat: usize },
    /// `step`: the poll seat makes its next step.
    Step,
}

// Returns the text before the first space, and the text after it.
#[tactic(auto, using(crate::proofs::CommandLemmas::no_space_before, crate::proofs::CommandLemmas::no_space_in))]
fn cut(text: &[u8]) -> (&[u8], Option<&[u8]>)
    ensures whole { text.now ≡ result.0.now ++ rest_text result.1 }
    ensures word { HasNoSpace result.0.now }
{
    match memchr(b' ', text) {
        Some(end) => (&text[..end], Some(&text[end + 1..])),
        None => (text, None),
    }
}

// Returns whether the text begins with a digit, which is 0 only in the text `0`.
fn starts_as_number(text: &[u8]) -> bool
    ensures { IsTrue result ↔ StartsAsNumber text.now }
{
    match text.first() {
        Some(b'0') => text.len() == 1,
        Some(first) => first.is_ascii_digit(),
        None => false,
    }
}

/// Returns the number that the text writes: decimal digits without a leading zero, below 2^64. Returns
/// `None` for any other text. Takes time in proportion to the text's bytes. Does not allocate.
pub fn number(text: &[u8]) -> Option<u64>
    ensures some { IfSome result (λ n. text.now ≡ decimal n) }
    ensures none { IfNone result ((n : ℕ) → n < 2 ^ 64 → text.now ≢ decimal n) }
{
    if !starts_as_number(text) {
        return None;
    }
    str::from_utf8(text).ok()?.parse().ok()
}

fn one(rest: Option<&[u8]>) -> Option<u64>
    ensures some { IfSome result (λ n. rest_text rest.entry ≡ spaced_number n) }
    ensures none { IfNone result ((n : ℕ) → n < 2 ^ 64 → rest_text rest.entry ≢ spaced_number n) }
{
    number(rest?)
}

fn two(rest: Option<&[u8]>) -> Option<(u64, u64)>
    ensures some { IfSome result (λ (m, n).
        rest_text rest.entry ≡ spaced_number m ++ spaced_number n) }
    ensures none { IfNone result ((m n : ℕ) → m < 2 ^ 64 → n < 2 ^ 64 →
        rest_text rest.entry ≢ spaced_number m ++ spaced_number n) }
{
    let (first, second) = cut(rest?);
    Some((number(first)?, number(second?)?))
}

// Returns the command that a line without a space writes.
fn bare(word: &[u8]) -> Option<Command>
    requires { HasNoSpace word.now }
    ensures { LineAsksFor word.now result }
{
    if word == b"poll".as_slice() {
        return Some(Command::Poll);
    }
    if word == b"len".as_slice() {
        return Some(Command::Len);
    }
    if word == b"step".as_slice() {
        return Some(Command::Step);
    }
    None
}

/// Returns the command that the line writes, in its one spelling, or `None` if there is none. Takes
/// time in proportion to the line's bytes. Does not allocate.
pub fn parse(line: &[u8]) -> Option<Command>
    ensures { LineAsksFor line.now result }
{
    let (word, rest) = cut(line);
    if word == b"unordered".as_slice() {
        return Some(Command::Unordered(one(rest)? as usize));
    }
    if word == b"ordered".as_slice() {
        return Some(Command::Ordered(one(rest)? as usize));
    }
    if word == b"growing".as_slice() {
        return Some(Command::Growing(one(rest)? as usize));
    }
    if word == b"steps".as_slice() {
        return Some(Command::Steps(one(rest)? as usize));
    }
    if word == b"limit".as_slice() {
        return Some(Command::Limit(one(rest)? as usize));
    }
    if word == b"push".as_slice() {
        let (value, pending) = two(rest)?;
        return Some(Command::Push(ReadyAfter { value, pending }));
    }
    if word == b"back".as_slice() {
        let (value, pending) = two(rest)?;
        return Some(Command::Back(ReadyAfter { value, pending }));
    }
    if word == b"front".as_slice() {
        let (value, pending) = two(rest)?;
        return Some(Command::Front(ReadyAfter { value, pending }));
    }
    if word == b"wake".as_slice() {
        return Some(Command::Wake(one(rest)? as usize));
    }
    if word == b"mark".as_slice() {
        let (seat, slot) = two(rest)?;
        return Some(Command::Mark {
            seat: seat as usize,
            slot: slot as usize,
        });
    }
    if word == b"go".as_slice() {
        let seat = one(rest)? as usize;
        return Some(Command::Go { seat });
    }
    if rest.is_some() {
        return None;
    }
    bare(word)
}
