// What a code answers to a call, and how that is printed.
use crate::symbols::Symbols;
use codes::code::Code;
use codes::refusals::Refusal;
use std::alloc::{AllocError, Global};
use std::fmt;

/// What stands in the memory behind a call's input, and must reach no answer.
const DIRT: u8 = 170;

/// The outcome of a call, with the word that it left.
#[derive(Drop)]
pub struct Answer {
    outcome: Result<(), Refusal>,
    word: Vec<u8>,
}

impl Answer {
    /// Sends a message.
    pub fn of_send<C: Code>(heap: Global, code: &C, message: &[u8]) -> Result<Answer, AllocError> {
        Answer::of(heap, code, message, |memory| code.send(memory))
    }

    // As `of_send`: each names its call, and the rest is `of`.
    /// Mends a received word.
    pub fn of_mend<C: Code>(heap: Global, code: &C, received: &[u8]) -> Result<Answer, AllocError> {
        Answer::of(heap, code, received, |memory| code.mend(memory))
    }

    /// Makes a call of the code in as much memory as it works in, with the input in front and dirt behind it.
    fn of<C: Code, F: FnOnce(&mut [u8]) -> Result<(), Refusal>>(
        heap: Global,
        code: &C,
        input: &[u8],
        call: F,
    ) -> Result<Answer, AllocError>
        requires { F.IsAlwaysCallable call }
    {
        let mut word = Vec::from_slice(heap, input)?;
        word.resize(code.working_length(), DIRT)?;
        let outcome = call(word.as_mut_slice());
        word.truncate(code.length());
        Ok(Answer { outcome, word })
    }

    /// The word that the call left.
    pub fn word(&self) -> &[u8] {
        self.word.as_slice()
    }
}

/// The word, or the number of the refusal.
impl fmt::Display for Answer {
    fn fmt<W: fmt::Write>(&self, f: &mut fmt::Formatter<W>) -> fmt::Result {
        match self.outcome {
            Ok(()) => {
                let word = Symbols(self.word());
                write!(f, "{word}")
            }
            Err(why) => {
                let number = why.number();
                write!(f, "refused {number}")
            }
        }
    }
}
