// The words of the command line.
ghost use Rattle.std.specs.Prelude.{◌↔◌, ◌∷◌, [], IfErr, IfOk, IsTrue, List, MatchOption, ℕ};
ghost use Rattle.hm_shell.specs.Words.{IsNoSize, IsPlan, IsPlanFault, IsPlanned, SpellsSize, IsUsageFault, IsVolumeWord, texts};

use crate::plan::{Plan, PlanFault};
use hm_types::{LEAST_BIGBLOCKS, MOST_BIGBLOCKS};
use std::alloc::Global;

// What the words name: the volume, and the size of a new one in big-blocks.
#[derive(Clone, Copy, Drop)]
struct Words<'a> {
    volume: &'a str,
    newfs: Option<u32>,
}

/// The plan that the words of the command line give, without the program's own name.
///
/// They are VOLUME alone, or with `--newfs BIGBLOCKS` before or after it. `PlanFault::Usage` says
/// that they are not; `PlanFault::NoMemory` that an allocation was refused.
pub fn plan(alloc: Global, words: &[String]) -> Result<Plan, PlanFault>
    ensures ok { IfOk result (IsPlanned (texts words.now)) }
    ensures err { IfErr result (IsPlanFault (texts words.now)) }
{
    let Some(Words { volume, newfs }) = read_words(words) else {
        return Err(PlanFault::Usage);
    };
    Ok(Plan {
        volume: String::from_str(alloc, volume)?,
        newfs,
        stream_in: None,
        stream_out: None,
        generate: None,
    })
}

/// The size of a new volume in big-blocks, if the words ask for one. None where they break the
/// rule. It takes no memory.
pub(crate) fn planned_size(words: &[String]) -> Option<Option<u32>>
    ensures { MatchOption result (IsUsageFault (texts words.now))
        (λ newfs. (volume : List ℕ) × IsPlan (texts words.now) volume newfs) }
{
    match read_words(words) {
        Some(Words { newfs, .. }) => Some(newfs),
        None => None,
    }
}

fn read_words(words: &[String]) -> Option<Words<'_>>
    ensures { MatchOption result (IsUsageFault (texts words.now))
        (λ w. IsPlan (texts words.now) w.volume.now w.newfs) }
{
    match words {
        [volume] => {
            let volume = volume.as_str();
            if is_volume_word(volume) {
                Some(Words {
                    volume,
                    newfs: None,
                })
            } else {
                None
            }
        }
        [first, second, third] => with_size(first.as_str(), second.as_str(), third.as_str()),
        _ => None,
    }
}

// The words with `--newfs BIGBLOCKS` in them.
fn with_size<'a>(first: &'a str, second: &'a str, third: &'a str) -> Option<Words<'a>>
    ensures { MatchOption result
        (IsUsageFault (first.now ∷ second.now ∷ third.now ∷ []))
        (λ w. IsPlan (first.now ∷ second.now ∷ third.now ∷ []) w.volume.now w.newfs) }
{
    let (volume, size) = if second == "--newfs" && is_volume_word(first) {
        (first, third)
    } else if first == "--newfs" && is_volume_word(third) {
        (third, second)
    } else {
        return None;
    };
    let newfs = Some(size_of_word(size)?);
    Some(Words { volume, newfs })
}

// A word that is not empty and begins no option.
fn is_volume_word(word: &str) -> bool
    ensures { IsTrue result ↔ IsVolumeWord word.now }
{
    !word.is_empty() && word.as_bytes()[0] != b'-'
}

// The number of big-blocks that a word spells, without a sign or a leading zero.
fn size_of_word(word: &str) -> Option<u32>
    ensures { MatchOption result (IsNoSize word.now) (SpellsSize word.now) }
{
    let Ok(size) = word.parse::<u32>() else {
        return None;
    };
    let is_plain = itoa::Buffer::new().format(size) == word;
    if is_plain && LEAST_BIGBLOCKS <= size && size <= MOST_BIGBLOCKS {
        Some(size)
    } else {
        None
    }
}
