// Codes whose word is the message and then checks, with so few messages that mending may try them all.
#![tactic(auto)]

ghost use Rattle.std.specs.Prelude.{◌≡◌, ℕ, ◌++◌, List, map};
ghost use Rattle.std.specs.List.{range_with_len};
ghost use Rattle.codes.specs.Refusals.{outcome};
ghost use Rattle.theory.specs.Calls.{sent, mended, read_back};
ghost use Rattle.theory.specs.Levels.{digits};
ghost use Rattle.theory.specs.Meanings.{Keeps};
ghost use Rattle.theory.specs.Reach.{messages, word_in_reach};
ghost use Rattle.systematic.specs.Systematic.{meaning_of};

use alphabets::Alphabet;
use codes::memory::clear;
use codes::refusals::Refusal;
use codes::tolls::{damage_between, first_mark};

/// A code of messages of K symbols, whose words of N symbols are the message and then its checks.
pub trait Systematic<const N: usize, const K: usize> {
    type Symbols: Alphabet;

    const DISTANCE: usize;

    const MESSAGES: u8;

    ghost DISTANCE: { ℕ };

    ghost MESSAGES: { ℕ };

    ghost checks: { List ℕ → List ℕ };

    /// The messages in counting order, the first symbol the most significant.
    fn message(index: u8) -> [u8; K]
        ensures { result ≡ digits Self.Symbols.Alphabet.symbols.q K index };

    /// The word of a message.
    fn word(message: &[u8; K]) -> [u8; N]
        ensures { result ≡ message.now ++ checks message.now };

    ghost keeps: { Keeps Self.Symbols.Alphabet.symbols (meaning_of N K DISTANCE checks) };

    ghost all: { messages Self.Symbols.Alphabet.symbols.q K ≡ map (digits Self.Symbols.Alphabet.symbols.q K) (range_with_len 0 MESSAGES) };
}

/// The message in the first K bytes becomes its word in the first N.
pub fn send<C: Systematic<N, K>, const N: usize, const K: usize>(
    memory: &mut [u8],
) -> Result<(), Refusal>
    ensures { (outcome result, memory.new) ≡ sent C.Symbols.Alphabet.symbols (meaning_of N K C.DISTANCE C.checks) memory.old }
{
    let Some(word) = memory.first_chunk_mut::<N>() else {
        return Err(Refusal::ShortMemory);
    };
    let Some(message) = word.first_chunk::<K>() else {
        return Err(Refusal::ShortMemory);
    };
    if let Some(place) = first_mark::<C::Symbols>(message) {
        return Err(Refusal::MarkInMessage(place));
    }
    *word = C::word(message);
    Ok(())
}

/// The received word in the first N bytes becomes the word of the message in reach.
pub fn mend<C: Systematic<N, K>, const N: usize, const K: usize>(
    memory: &mut [u8],
) -> Result<(), Refusal>
    ensures { (outcome result, memory.new) ≡ mended C.Symbols.Alphabet.symbols (meaning_of N K C.DISTANCE C.checks) memory.old }
{
    let Some(received) = memory.first_chunk_mut::<N>() else {
        return Err(Refusal::ShortMemory);
    };
    let Some(word) = word_in_reach::<C, N, K>(received) else {
        return Err(Refusal::BeyondReach);
    };
    *received = word;
    Ok(())
}

/// The word in the first N bytes becomes its message in the first K.
pub fn read<C: Systematic<N, K>, const N: usize, const K: usize>(
    memory: &mut [u8],
) -> Result<(), Refusal>
    ensures { (outcome result, memory.new) ≡ read_back C.Symbols.Alphabet.symbols (meaning_of N K C.DISTANCE C.checks) memory.old }
{
    let Some(found) = memory.first_chunk::<N>() else {
        return Err(Refusal::ShortMemory);
    };
    let Some(message) = found.first_chunk::<K>() else {
        return Err(Refusal::ShortMemory);
    };
    // A word is what its first symbols are sent as, without any damage; a mark is damage.
    let word = C::word(message);
    if !damage_between::<C::Symbols>(&word, found).toll_below(1) {
        return Err(Refusal::NotAWord);
    }
    clear(memory, K, N - K);
    Ok(())
}

/// The word of the message in reach of the received one, if there is one: tries all messages.
fn word_in_reach<C: Systematic<N, K>, const N: usize, const K: usize>(
    received: &[u8; N],
) -> Option<[u8; N]>
    ensures { result ≡ word_in_reach C.Symbols.Alphabet.symbols (meaning_of N K C.DISTANCE C.checks) received.now }
{
    // A loop: `find` would give the index, and the word would be made once more.
    for index in 0..C::MESSAGES {
        let word = C::word(&C::message(index));
        if damage_between::<C::Symbols>(&word, received).toll_below(C::DISTANCE) {
            return Some(word);
        }
    }
    None
}
