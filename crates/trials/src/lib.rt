// Examples of every public call as tests. The memory that a call is lent is dirty throughout.
#![tactic(auto)]

ghost use Rattle.std.specs.Prelude.{◌≡◌};
ghost use Rattle.trials.specs.Answers.{number_of, making_number_of};

use codes::refusals::{MakingRefusal, Refusal};

// By number: so a refusal is known, and the tests hold each call to it.
/// The number of a refusal, or 0 for an accepted call.
pub fn number(answer: Result<(), Refusal>) -> u8
    ensures { result ≡ number_of answer }
{
    match answer {
        Ok(()) => 0,
        Err(refusal) => refusal.number(),
    }
}

// Beside `number`, and in the stores' tests again: a trait for all refusals would be longer than these few lines.
/// The number of a refused making, or 0 for a code that was made.
pub fn making_number<C: Drop>(answer: Result<C, MakingRefusal>) -> u8
    ensures { result ≡ making_number_of answer }
{
    match answer {
        Ok(_) => 0,
        Err(refusal) => refusal.number(),
    }
}

mod alphabet_examples;
mod code_examples;
mod field_examples;
mod foreign;
mod gap_examples;
mod join_examples;
mod part_examples;
mod plotkin_examples;
mod shared_examples;
