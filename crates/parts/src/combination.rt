// Whether two words are added or the second is taken away.

/// How two words are put together.
#[derive(Clone, Copy)]
pub enum Combination {
    Sum,
    Difference,
}
