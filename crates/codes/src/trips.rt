// Calls one after the other, and what mend is in the words of reach. Each holds of every fit code, and each is a function since
// its promise is a theorem of its own.
ghost use Rattle.std.specs.Prelude.{◌≡◌};
ghost use Rattle.codes.specs.Refusals.{outcome};
ghost use Rattle.theory.specs.Calls.{sent, mended};
ghost use Rattle.theory.specs.Trips.{message_returned, word_returned, MendsWhatIsInReach};

use crate::code::Code;
use crate::refusals::Refusal;

/// Sends the message in the first k bytes and reads its word back: the message is there again.
pub fn send_then_read<C: Code>(code: &C, message: &mut [u8]) -> Result<(), Refusal>
    ensures gives_the_message { C.Code.fit code.now → (outcome result, message.new) ≡ message_returned C.Symbols.Alphabet.symbols (C.Code.meaning code.now) message.old }
{
    code.send(message)?;
    code.read(message)
}

/// Reads the word in the first n bytes and sends its message: the word is there again.
pub fn read_then_send<C: Code>(code: &C, word: &mut [u8]) -> Result<(), Refusal>
    ensures gives_the_word { C.Code.fit code.now → (outcome result, word.new) ≡ word_returned C.Symbols.Alphabet.symbols (C.Code.meaning code.now) word.old }
{
    code.read(word)?;
    code.send(word)
}

/// Sends the message in the first k bytes and mends its word: that leaves the word as it was sent.
pub fn send_then_mend<C: Code>(code: &C, memory: &mut [u8]) -> Result<(), Refusal>
    ensures leaves_what_was_sent { C.Code.fit code.now → (outcome result, memory.new) ≡ sent C.Symbols.Alphabet.symbols (C.Code.meaning code.now) memory.old }
{
    code.send(memory)?;
    code.mend(memory)
}

/// Mends, and promises it in the words of reach: accepted exactly when some message is in reach, with its word.
pub fn mend_in_reach<C: Code>(code: &C, received: &mut [u8]) -> Result<(), Refusal>
    ensures answer { C.Code.fit code.now → (outcome result, received.new) ≡ mended C.Symbols.Alphabet.symbols (C.Code.meaning code.now) received.old }
    ensures mends_what_is_in_reach { C.Code.fit code.now → MendsWhatIsInReach C.Symbols.Alphabet.symbols (C.Code.meaning code.now) received.old (outcome result) received.new }
{
    code.mend(received)
}
