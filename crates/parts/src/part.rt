// A code below a join: its numbers, and its calls in a middle part of the memory that is lent to the join.
ghost use Rattle.std.specs.Prelude.{◌≡◌, ◌-◌, IfOk, IsOk};
ghost use Rattle.codes.specs.Refusals.{outcome};
ghost use Rattle.parts.specs.Numbers.{NumbersOf};
ghost use Rattle.theory.specs.Calls.{sent, mended, read_back};
ghost use Rattle.theory.specs.Gaps.{widened};
ghost use Rattle.theory.specs.Parts.{call_in_part};

use crate::asked::numbers_of;
use crate::calls::{mend_part, read_part, send_part};
use crate::gaps::widen;
use crate::numbers::Numbers;
use codes::code::Code;
use codes::refusals::{MakingRefusal, Refusal};

/// A code and its numbers, asked once.
#[derive(Drop)]
pub struct Part<C: Code> {
    pub code: C,
    pub numbers: Numbers,
    pub ghost asked: { C.Code.fit code → NumbersOf numbers (C.Code.meaning code) },
}

impl<C: Code + Drop> Part<C> {
    /// The code with its numbers; refused where no fit code could have them, and the code is used up then.
    pub fn new(code: C) -> Result<Part<C>, MakingRefusal>
        ensures keeps_the_code { IfOk result (λ part. part.code ≡ code) }
        ensures every_fit_code { C.Code.fit code → IsOk result }
    {
        let Some(numbers) = numbers_of(&code) else {
            return Err(MakingRefusal::WorkingTooLong);
        };
        Ok(Part { code, numbers })
    }
}

impl<C: Code> Part<C> {
    /// Sends the message at `from` in the part at `at`.
    pub fn send(&self, memory: &mut [u8], from: usize, at: usize) -> Result<(), Refusal>
        ensures { C.Code.fit self.now.code → (outcome result, memory.new) ≡ call_in_part (sent C.Symbols.Alphabet.symbols (C.Code.meaning self.now.code)) from self.now.numbers.dimension at self.now.numbers.working memory.old }
    {
        let own = self.numbers;
        send_part(&self.code, memory, from, own.dimension, at, own.working)
    }

    /// Mends the received word at `from` in the part at `at`.
    pub fn mend(&self, memory: &mut [u8], from: usize, at: usize) -> Result<(), Refusal>
        ensures { C.Code.fit self.now.code → (outcome result, memory.new) ≡ call_in_part (mended C.Symbols.Alphabet.symbols (C.Code.meaning self.now.code)) from self.now.numbers.length at self.now.numbers.working memory.old }
    {
        let own = self.numbers;
        mend_part(&self.code, memory, from, own.length, at, own.working)
    }

    /// Reads the word at `from` in the part at `at`.
    pub fn read(&self, memory: &mut [u8], from: usize, at: usize) -> Result<(), Refusal>
        ensures { C.Code.fit self.now.code → (outcome result, memory.new) ≡ call_in_part (read_back C.Symbols.Alphabet.symbols (C.Code.meaning self.now.code)) from self.now.numbers.length at self.now.numbers.working memory.old }
    {
        let own = self.numbers;
        read_part(&self.code, memory, from, own.length, at, own.working)
    }

    /// Writes the word in front, with `value` put in at the place that it has lost, behind the first n bytes, n being the
    /// code's length, and mends it there.
    pub fn mend_widened(&self, memory: &mut [u8], place: usize, value: u8) -> Result<(), Refusal>
        ensures { let n = self.now.numbers.length in C.Code.fit self.now.code → (outcome result, memory.new) ≡ call_in_part (mended C.Symbols.Alphabet.symbols (C.Code.meaning self.now.code)) n n n self.now.numbers.working (widened memory.old 0 (n - 1) place value n) }
    {
        let n = self.numbers.length;
        widen(memory, 0, n.saturating_sub(1), place, value, n);
        self.mend(memory, n, n)
    }
}
