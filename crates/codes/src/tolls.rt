// Counting over received words: marks, and the damage that a word would have taken to become what was received.
ghost use Rattle.std.specs.Prelude.{◌≡◌, ◌+◌, ◌*◌, length, take, nat_lt, nat_le, position};
ghost use Rattle.theory.specs.Calls.{first_mark};
ghost use Rattle.theory.specs.Words.{wrong, marked};

use alphabets::Alphabet;

/// How many places are wrong (errors) and how many are marked (erasures).
#[derive(Clone, Copy)]
pub struct Damage {
    pub wrong: usize,
    pub marked: usize,
}

impl Damage {
    /// Whether the toll, twice the wrong places and once the marked ones, is below the distance.
    pub fn toll_below(&self, distance: usize) -> bool
        ensures { result ≡ nat_lt (2 * self.now.wrong + self.now.marked) distance }
    {
        self.marked < distance && self.wrong <= (distance - self.marked - 1) / 2
    }
}

/// The place of the first mark, if there is one.
pub fn first_mark<S: Alphabet>(bytes: &[u8]) -> Option<usize>
    ensures { result ≡ first_mark S.Alphabet.symbols.q bytes.now }
{
    first_from(bytes, S::order())
}

/// How many of the bytes are marks.
pub fn count_marks<S: Alphabet>(bytes: &[u8]) -> usize
    ensures { result ≡ marked S.Alphabet.symbols.q bytes.now }
{
    // A loop: as `filter` and `count`, which go through an `Option`, it took up to twice the time.
    let mut marks = 0;
    for x in bytes {
        if *x >= S::order() {
            marks += 1;
        }
    }
    marks
}

/// The damage between a word and what was received, over the places that both have.
pub fn damage_between<S: Alphabet>(word: &[u8], received: &[u8]) -> Damage
    ensures errors { result.wrong ≡ wrong S.Alphabet.symbols.q word.now received.now }
    ensures erasures { result.marked ≡ marked S.Alphabet.symbols.q (take (length word.now) received.now) }
{
    // By index, in one pass: a search makes this call for each message, and a compiler then goes through all messages at once.
    // As a chain for each count it took six times the time in the hexacode's mend; as a `for` over the pairs of two slices of one
    // length as much there, but half as much again at 32 places, and three quarters more at 200.
    let mut wrong = 0;
    let mut marked = 0;
    for i in 0..word.len().min(received.len()) {
        if received[i] >= S::order() {
            marked += 1;
        } else if received[i] != word[i] {
            wrong += 1;
        }
    }
    Damage { wrong, marked }
}

// A function of its own: the chain is proved in the library's words, and a lemma says it in the words of marks.
/// The place of the first byte that is not below `order`, if there is one.
fn first_from(bytes: &[u8], order: u8) -> Option<usize>
    ensures { result ≡ position (λ x. nat_le order x) bytes.now }
{
    bytes.iter().position(|x| *x >= order)
}
