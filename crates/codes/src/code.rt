// What a code is. Every promise is for fit codes; an unfit one is at least safe and ends.
ghost use Rattle.std.specs.Prelude.{◌≡◌, ℕ, List};
ghost use Rattle.codes.specs.Refusals.{outcome};
ghost use Rattle.theory.specs.Pairs.{AtDistance};
ghost use Rattle.theory.specs.Calls.{sent, mended, read_back, shown};
ghost use Rattle.theory.specs.Meanings.{Meaning, Keeps};

use crate::refusals::Refusal;
use alphabets::Alphabet;

/// A code over an alphabet. Its meaning is its length, dimension, distance and working length, its codewords and its
/// carriers; `keeps` is all that a meaning has to keep. Send, mend and read work in the first `working_length` bytes
/// of the memory handed to them; later bytes never change.
pub trait Code {
    type Symbols: Alphabet;

    ghost meaning: { Self → Meaning };

    ghost fit: { Self → Type 0 };

    fn length(&self) -> usize
        ensures { fit self.now → result ≡ (meaning self.now).n };

    fn dimension(&self) -> usize
        ensures { fit self.now → result ≡ (meaning self.now).k };

    fn distance(&self) -> usize
        ensures { fit self.now → result ≡ (meaning self.now).d };

    fn working_length(&self) -> usize
        ensures { fit self.now → result ≡ (meaning self.now).w };

    /// The place of the word that repeats this place of the message (a systematic place), if there is one.
    fn carrier(&self, place: usize) -> Option<usize>
        ensures { fit self.now → result ≡ (meaning self.now).carrier place };

    /// The message in the first k bytes becomes its word in the first n.
    fn send(&self, memory: &mut [u8]) -> Result<(), Refusal>
        ensures { fit self.now → (outcome result, memory.new) ≡ sent Self.Symbols.Alphabet.symbols (meaning self.now) memory.old };

    /// The received word in the first n bytes becomes the word of the message in reach (errors-and-erasures decoding).
    fn mend(&self, memory: &mut [u8]) -> Result<(), Refusal>
        ensures { fit self.now → (outcome result, memory.new) ≡ mended Self.Symbols.Alphabet.symbols (meaning self.now) memory.old };

    /// The word in the first n bytes becomes its message in the first k.
    fn read(&self, memory: &mut [u8]) -> Result<(), Refusal>
        ensures { fit self.now → (outcome result, memory.new) ≡ read_back Self.Symbols.Alphabet.symbols (meaning self.now) memory.old };

    ghost keeps: { (c : Self) → fit c → Keeps Self.Symbols.Alphabet.symbols (meaning c) };
}

/// A code that shows two messages whose words lie at its distance, so that the distance is no mere bound.
pub trait Showing: Code {
    ghost pair: { Self → List ℕ × List ℕ };

    /// Two different messages whose words differ in exactly d places, one after the other in the first 2k bytes.
    fn show(&self, memory: &mut [u8]) -> Result<(), Refusal>
        ensures answer { Self.Code.fit self.now → (outcome result, memory.new) ≡ shown (Self.Code.meaning self.now) (pair self.now).0 (pair self.now).1 memory.old }
        ensures at_distance { Self.Code.fit self.now → AtDistance Self.Symbols.Alphabet.symbols (Self.Code.meaning self.now) (pair self.now).0 (pair self.now).1 };

    ghost shows: { (c : Self) → Self.Code.fit c → AtDistance Self.Symbols.Alphabet.symbols (Self.Code.meaning c) (pair c).0 (pair c).1 };
}
