// The codes of the models.
use crate::model::WithoutPair;
use alphabets::{Four, Three, Two};
use codes::refusals::MakingRefusal;
use direct_sum::DirectSum;
use hamming::Hamming;
use hexacode::Hexacode;
use parity::Parity;
use piles::{FourPile, four_pile};
use plotkin::Plotkin;
use puncture::Puncture;
use repetition::Repetition;
use shorten::Shorten;

// A function for each code that takes more than one call: what two of them have alike is the number of parts.
pub fn three_pile() -> Result<Plotkin<Parity<Three>, Repetition<Three>>, MakingRefusal> {
    Plotkin::new(Parity::new(5)?, Repetition::new(5)?)
}

pub fn split() -> Result<DirectSum<Repetition<Two>, Repetition<Two>>, MakingRefusal> {
    DirectSum::new(Repetition::new(1)?, Repetition::new(2)?)
}

pub fn rig() -> Result<DirectSum<Hexacode, FourPile>, MakingRefusal> {
    DirectSum::new(Hexacode, four_pile()?)
}

pub fn short_hamming() -> Result<WithoutPair<Shorten<Hamming>>, MakingRefusal> {
    Ok(WithoutPair(Shorten::new(Hamming, 0)?))
}

pub fn punctured_hexacode() -> Result<WithoutPair<Puncture<Hexacode>>, MakingRefusal> {
    Ok(WithoutPair(Puncture::new(Hexacode, 2)?))
}

/// What the tower stands on: repetition 4 and the four-symbol pile side by side, shortened at 1 and punctured at 5.
pub type TowerBase = Puncture<Shorten<DirectSum<Repetition<Four>, FourPile>>>;

fn tower_base() -> Result<TowerBase, MakingRefusal> {
    let beside = DirectSum::new(Repetition::new(4)?, four_pile()?)?;
    Puncture::new(Shorten::new(beside, 1)?, 5)
}

pub fn tower() -> Result<WithoutPair<Plotkin<TowerBase, Repetition<Four>>>, MakingRefusal> {
    Ok(WithoutPair(Plotkin::new(tower_base()?, Repetition::new(14)?)?))
}
