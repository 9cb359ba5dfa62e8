// Examples of every call of a cue store as tests. The memory that a call is lent is dirty throughout.
#![tactic(auto)]

ghost use Rattle.std.specs.Prelude.{◌≡◌};
ghost use Rattle.store_trials.specs.Answers.{number_of};

use cues::StoreRefusal;

// As in the codes' tests: a trait for all refusals would be longer than these few lines.
/// The number of a refusal, or 0 for an accepted call.
pub fn number<T: Drop>(answer: Result<T, StoreRefusal>) -> u8
    ensures { result ≡ number_of answer }
{
    match answer {
        Ok(_) => 0,
        Err(refusal) => refusal.number(),
    }
}

mod pile_examples;
mod store_examples;
