// Calls in a middle part of lent memory: what a join lends to the codes below it. The numbers stay apart, as in the definition
// that the contracts cite.
ghost use Rattle.std.specs.Prelude.{◌≡◌};
ghost use Rattle.codes.specs.Refusals.{outcome};
ghost use Rattle.parts.specs.Called.{Computes};
ghost use Rattle.theory.specs.Calls.{sent, mended, read_back};
ghost use Rattle.theory.specs.Parts.{Call, call_in_part};

use codes::code::Code;
use codes::memory::{has_range, move_within};
use codes::refusals::Refusal;

/// Moves `count` bytes from `from` on to the part of `working` bytes at `at`, and sends there.
pub fn send_part<C: Code>(
    code: &C,
    memory: &mut [u8],
    from: usize,
    count: usize,
    at: usize,
    working: usize,
) -> Result<(), Refusal>
    ensures { C.Code.fit code.now → (outcome result, memory.new) ≡ call_in_part (sent C.Symbols.Alphabet.symbols (C.Code.meaning code.now)) from count at working memory.old }
{
    call_in_part(memory, from, count, at, working, |part| code.send(part))
}

/// Moves `count` bytes from `from` on to the part of `working` bytes at `at`, and mends there.
pub fn mend_part<C: Code>(
    code: &C,
    memory: &mut [u8],
    from: usize,
    count: usize,
    at: usize,
    working: usize,
) -> Result<(), Refusal>
    ensures { C.Code.fit code.now → (outcome result, memory.new) ≡ call_in_part (mended C.Symbols.Alphabet.symbols (C.Code.meaning code.now)) from count at working memory.old }
{
    call_in_part(memory, from, count, at, working, |part| code.mend(part))
}

/// Moves `count` bytes from `from` on to the part of `working` bytes at `at`, and reads there.
pub fn read_part<C: Code>(
    code: &C,
    memory: &mut [u8],
    from: usize,
    count: usize,
    at: usize,
    working: usize,
) -> Result<(), Refusal>
    ensures { C.Code.fit code.now → (outcome result, memory.new) ≡ call_in_part (read_back C.Symbols.Alphabet.symbols (C.Code.meaning code.now)) from count at working memory.old }
{
    call_in_part(memory, from, count, at, working, |part| code.read(part))
}

// For callers with a call of their own: a call of a closure asks that it may be called. For a code's call the three above say the
// same and ask nothing.
/// Moves `count` bytes from `from` on to the part of `working` bytes at `at`, and calls `f` there.
pub fn call_in_part<F: FnOnce(&mut [u8]) -> Result<(), Refusal>>(
    memory: &mut [u8],
    from: usize,
    count: usize,
    at: usize,
    working: usize,
    f: F,
) -> Result<(), Refusal>
    requires { F.IsAlwaysCallable f }
    ensures { (call : Call) → Computes F.FnOnce f call → (outcome result, memory.new) ≡ call_in_part call from count at working memory.old }
{
    if !has_range(memory.len(), at, working) {
        return Err(Refusal::ShortMemory);
    }
    move_within(memory, from, count, at);
    f(&mut memory[at..at + working])
}
