// A script from its source, whole.
ghost use Rattle.std.specs.Prelude.{◌≡◌, ◌<◌, ◌≤◌, ◌+◌, ◌-◌, ◌^◌, ◌++◌, ℕ, IfErr, IfOk, List, length, vec_len};
ghost use Rattle.hm_model.specs.Lines.{texts_of};
ghost use Rattle.hm_shell.specs.Reading.{WasRead, StoppedReading, feeds};
ghost use Rattle.hm_shell.specs.Seen.{seen};

use crate::stop::RunStop;
use hm_pipe::Source;
use hm_types::{MOST_SCRIPT_BYTES, MOST_SCRIPT_LINES};
use std::alloc::{AllocError, Global};

// How many bytes are asked for at a time.
const PIECE_BYTES: usize = 65_536;

/// Reads the script to its end. It stops at a fault of the source, at the first piece that makes
/// the script too long, and where memory runs out.
pub(crate) fn read_script<S: Source>(alloc: Global, source: &mut S) -> Result<Vec<u8>, RunStop>
    ensures ok { IfOk result (λ script.
        WasRead (seen S.left S.faults source.old) (seen S.left S.faults source.new) script.items) }
    ensures err { IfErr result
        (StoppedReading (seen S.left S.faults source.old) (seen S.left S.faults source.new)) }
    ensures never_falls { S.faults source.old ≤ S.faults source.new }
{
    let before = source.faults();
    let mut script = Vec::new(alloc);
    let mut piece = piece_buffer(alloc)?;
    let mut feeds = 0;
    let mut lines = 0;
    'reading: while script.len() <= MOST_SCRIPT_BYTES && lines <= MOST_SCRIPT_LINES as usize {
        let Ok(count) = source.take(&mut piece) else {
            return Err(RunStop::ScriptFault {
                before,
                after: source.faults(),
            });
        };
        if count == 0 {
            return Ok(script);
        }
        let taken = &piece[..count];
        (feeds, lines) = count_on(feeds, taken);
        script.extend_from_slice(taken)?;
    }
    Err(RunStop::TooLong)
}

fn piece_buffer(alloc: Global) -> Result<Vec<u8>, AllocError>
    ensures { IfOk result (λ buffer. 0 < vec_len buffer) }
{
    vec![in alloc; 0; PIECE_BYTES]
}

// The line feeds and the lines of a text that goes on by this piece, from its line feeds so far.
fn count_on(feeds_so_far: usize, piece: &[u8]) -> (usize, usize)
    requires some { 0 < length piece.now }
    requires few { feeds_so_far + length piece.now < 2 ^ 64 - 1 }
    ensures { (text : List ℕ) → feeds_so_far ≡ feeds text →
        (result.0 ≡ feeds (text ++ piece.now))
        × (result.1 ≡ length (texts_of (text ++ piece.now))) }
{
    let feeds = feeds_so_far + count_feeds(piece);
    let is_ended = piece[piece.len() - 1] == b'\n';
    (feeds, if is_ended { feeds } else { feeds + 1 })
}

fn count_feeds(piece: &[u8]) -> usize
    ensures value { result ≡ feeds piece.now }
    ensures few { result ≤ length piece.now }
{
    piece.iter().filter(|byte| **byte == b'\n').count()
}
