// The models: codes that a script can choose by name.
use crate::fault::Reason;
use codes::code::{Code, Showing};
use codes::refusals::Refusal;
use std::fmt;

/// The names of the models.
#[derive(Clone, Copy)]
pub enum Name {
    Rep5Three,
    Parity3Three,
    Hamming,
    Hexacode,
    Rm3,
    Mariner,
    FourPile,
    ThreePile,
    Split,
    Rig,
    ShortHamming,
    PuncturedHexacode,
    Tower,
}

impl Name {
    /// No derive lists the variants of an enum.
    const ALL: [Name; 13] = [
        Name::Rep5Three,
        Name::Parity3Three,
        Name::Hamming,
        Name::Hexacode,
        Name::Rm3,
        Name::Mariner,
        Name::FourPile,
        Name::ThreePile,
        Name::Split,
        Name::Rig,
        Name::ShortHamming,
        Name::PuncturedHexacode,
        Name::Tower,
    ];

    fn as_str(&self) -> &'static str {
        match self {
            Name::Rep5Three => "rep5-three",
            Name::Parity3Three => "parity3-three",
            Name::Hamming => "hamming",
            Name::Hexacode => "hexacode",
            Name::Rm3 => "rm3",
            Name::Mariner => "mariner",
            Name::FourPile => "four-pile",
            Name::ThreePile => "three-pile",
            Name::Split => "split",
            Name::Rig => "rig",
            Name::ShortHamming => "short-hamming",
            Name::PuncturedHexacode => "punctured-hexacode",
            Name::Tower => "tower",
        }
    }
}

/// The name that a word is.
impl TryFrom<&[u8]> for Name {
    type Error = Reason;

    fn try_from(word: &[u8]) -> Result<Name, Reason> {
        let mut names = Name::ALL.into_iter();
        let found = names.find(|name| name.as_str().as_bytes() == word);
        found.ok_or(Reason::WrongArguments)
    }
}

impl fmt::Display for Name {
    fn fmt<W: fmt::Write>(&self, f: &mut fmt::Formatter<W>) -> fmt::Result {
        f.write_str(self.as_str())
    }
}

/// A code that a script works with.
pub trait Model: Sized {
    type Code: Code + Drop;

    fn code(&self) -> &Self::Code;

    /// The code, for a store to stand over.
    fn into_code(self) -> Self::Code;

    /// What the code's show answers, or None if it shows no pair.
    fn show(&self, memory: &mut [u8]) -> Option<Result<(), Refusal>>;
}

// The two impls differ in show alone; one struct for both would need a type for each way to show, which is no plainer.
/// A code that shows a pair is a model as it is.
impl<C: Showing + Drop> Model for C {
    type Code = C;

    fn code(&self) -> &C {
        self
    }

    fn into_code(self) -> C {
        self
    }

    fn show(&self, memory: &mut [u8]) -> Option<Result<(), Refusal>> {
        Some(Showing::show(self, memory))
    }
}

/// A code that shows no pair.
#[derive(Drop)]
pub struct WithoutPair<C>(pub C);

impl<C: Code + Drop> Model for WithoutPair<C> {
    type Code = C;

    fn code(&self) -> &C {
        &self.0
    }

    fn into_code(self) -> C {
        self.0
    }

    fn show(&self, _memory: &mut [u8]) -> Option<Result<(), Refusal>> {
        None
    }
}
