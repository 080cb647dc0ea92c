// The lines of a script: where each ends, how many there are, and the first of them.
ghost use Rattle.std.specs.Prelude.{◌≡◌, ◌<◌, ◌≤◌, ◌∷◌, ◌↔◌, IsTrue, length, take};
ghost use Rattle.hm_model.specs.Lines.{texts_of};
ghost use Rattle.hm_model.specs.Script.{IsTooLong};

use hm_types::{MOST_SCRIPT_BYTES, MOST_SCRIPT_LINES};
use memchr::memchr;

/// Cuts the first line off: its text, without the line feed that ends it, and what comes after that.
pub(crate) fn split_line(script: &[u8]) -> (&[u8], &[u8])
    requires { 0 < length script.now }
    ensures texts { texts_of script.now ≡ result.0.now ∷ texts_of result.1.now }
    ensures shorter { length result.1.now < length script.now }
{
    match memchr(b'\n', script) {
        Some(end) => (&script[..end], &script[end + 1..]),
        None => (script, &script[script.len()..]),
    }
}

/// The bytes of the first lines, so many: all bytes where there are no more. It takes no memory.
pub fn first_lines(script: &[u8], count: u32) -> &[u8]
    ensures texts { texts_of result.now ≡ take count (texts_of script.now) }
    ensures shorter { length result.now ≤ length script.now }
{
    let mut end = 0usize;
    let mut left = count;
    'lines: while left > 0 {
        let Some(length) = memchr(b'\n', &script[end..]) else {
            return script;
        };
        end += length + 1;
        left -= 1;
    }
    &script[..end]
}

/// Whether the script has too many bytes or lines. It takes no memory.
pub(crate) fn is_too_long(script: &[u8]) -> bool
    ensures { IsTrue result ↔ IsTooLong script.now }
{
    script.len() > MOST_SCRIPT_BYTES || count_lines(script) > MOST_SCRIPT_LINES as usize
}

fn count_lines(script: &[u8]) -> usize
    ensures { result ≡ length (texts_of script.now) }
{
    let mut rest = script;
    let mut count = 0usize;
    'lines: while !rest.is_empty() {
        let (_, after) = split_line(rest);
        count += 1;
        rest = after;
    }
    count
}
