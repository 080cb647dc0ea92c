// What a call over a store came to.
ghost use Rattle.std.specs.Prelude.{◌≡◌};
ghost use Rattle.hm_calls.specs.Answered.{reply_in};
ghost use Rattle.hm_core.specs.Answer.{led_work, reply_of_outcome, work_of};

use crate::work::Work;
use hm_calls::Answered;
use hm_model::Reply;
use hm_prune::Prune;

/// What became of a call over a store.
#[derive(Drop)]
pub enum Outcome {
    /// It is at its end, with this reply.
    Replied(Reply),
    /// It is the opening of a call of housekeeping that was accepted, with the reply `ok`, and has this to
    /// do.
    Opened(Work),
}

/// What a store answered.
pub(crate) fn outcome_of(answered: Answered) -> Outcome
    ensures reply { reply_of_outcome result ≡ reply_in answered }
    ensures work { work_of result ≡ led_work answered }
{
    match answered {
        Answered::Replied(reply) => Outcome::Replied(reply),
        Answered::Opened(led) => Outcome::Opened(Work::Prune(Prune::new(led.pfs, led.kept))),
    }
}
