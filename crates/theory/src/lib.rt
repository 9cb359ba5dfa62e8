// The definitions of codes and the laws about them. What a reader must believe stands in specs/; the functions here
// carry the theorems about it in their contracts.
#![tactic(auto)]

ghost use Rattle.std.specs.Prelude.{◌≡◌, length};
ghost use Rattle.theory.specs.Cases.{cases, WorkedExamplesHold};
ghost use Rattle.theory.specs.Joins.{most_working_length};
ghost use Rattle.theory.specs.Piles.{shown_messages, EveryPileKeepsItsMeaning, ShownPairIsAtTheDistance};

/// How many worked examples the definitions list; every one of them holds.
pub fn worked_examples() -> usize
    ensures value { result ≡ length cases }
    ensures worked_examples_hold { WorkedExamplesHold }
{
    15
}

/// The longest working length that a code may have. A pile of joins that is made keeps that bound and all else that a
/// code's meaning has to keep.
pub fn longest_working_length() -> usize
    ensures value { result ≡ most_working_length }
    ensures every_pile_keeps_its_meaning { EveryPileKeepsItsMeaning }
{
    4096
}

/// How many messages a showing code shows. For a pile they are different, at exactly the worked-out distance, and no
/// two different messages are nearer.
pub fn shown_messages() -> usize
    ensures value { result ≡ shown_messages }
    ensures shown_pair_is_at_the_distance { ShownPairIsAtTheDistance }
{
    2
}
