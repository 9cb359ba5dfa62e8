// A word and what was received, both in one memory.

/// `count` bytes of a word from `word` on, and as many received bytes from `received` on.
#[derive(Clone, Copy)]
pub struct Placed {
    pub word: usize,
    pub received: usize,
    pub count: usize,
}
