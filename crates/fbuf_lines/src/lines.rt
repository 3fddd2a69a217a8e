//! The lines of a text, one after another.
ghost use Rattle.std.specs.Prelude.{◌≡◌, ◌<◌, ◌∷◌, [], length, IfSome, IfNone};
ghost use Rattle.fbuf_lines.specs.Lines.{lines_of};

use memchr::memchr;

/// Returns the first line, without its line feed, and the text after it. Returns `None` if the text is
/// empty.
///
/// A carriage return is a byte like any other. Takes time in proportion to the line's bytes. Does not
/// allocate.
pub fn first_line(text: &[u8]) -> Option<(&[u8], &[u8])>
    ensures end { IfNone result (text.now ≡ []) }
    ensures first { IfSome result (λ r. lines_of text.now ≡ r.0.now ∷ lines_of r.1.now) }
    ensures shorter { IfSome result (λ r. length r.1.now < length text.now) }
{
    if text.is_empty() {
        return None;
    }
    match memchr(b'\n', text) {
        Some(end) => Some((&text[..end], &text[end + 1..])),
        None => Some((text, &text[text.len()..])),
    }
}
