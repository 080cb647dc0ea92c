// The lane of a line.
ghost use Rattle.std.specs.Prelude.{MatchOption};
ghost use Rattle.hm_model.specs.Words.{IsLaneWord};
ghost use Rattle.hm_script.specs.Texts.{texts};
ghost use Rattle.hm_script.specs.Lanes.{CutsLane, IsNoLaneWord};

use crate::number::read_number_between;
use hm_types::MOST_LANES;

/// Takes off the lane that the first word gives, if it gives one: the lane and the words after it.
/// Else they are 0 and all the words.
pub(crate) fn cut_lane<'w, 'a>(words: &'w [&'a [u8]]) -> (u8, &'w [&'a [u8]])
    ensures { CutsLane (texts words.now) result.0 (texts result.1.now) }
{
    if let [first, rest @ ..] = words
        && let Some(lane) = lane_of(first)
    {
        return (lane, rest);
    }
    (0, words)
}

fn lane_of(word: &[u8]) -> Option<u8>
    ensures { MatchOption result (IsNoLaneWord word.now) (IsLaneWord word.now) }
{
    let digits = word.strip_suffix(b":")?;
    let lane = read_number_between(digits, 1, u64::from(MOST_LANES))?;
    Some(lane as u8)
}
