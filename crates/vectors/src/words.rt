// The words of a code: each of them, and how many there are of each weight.
use crate::answer::Answer;
use crate::symbols::{Symbols, each_counted};
use alphabets::Alphabet;
use codes::code::Code;
use std::alloc::Global;
use std::collections::BTreeMap;
use std::io;
use std::io::Write;

/// Writes every message and its word, in counting order.
pub fn write_words<C: Code>(
    out: &mut Vec<u8>,
    heap: Global,
    name: &str,
    code: &C,
) -> io::Result<()> {
    each_counted(heap, code.dimension(), C::Symbols::order(), |message| {
        let sent = Symbols(message);
        let word = Answer::of_send(heap, code, message)?;
        writeln!(out, "{name} {sent} {word}")
    })
}

/// Writes how many words have each weight, the lowest weight first.
pub fn write_weights<C: Code>(
    out: &mut Vec<u8>,
    heap: Global,
    name: &str,
    code: &C,
) -> io::Result<()> {
    let mut counts: BTreeMap<usize, usize> = BTreeMap::new(heap);
    each_counted(heap, code.dimension(), C::Symbols::order(), |message| {
        let word = Answer::of_send(heap, code, message)?;
        let count = counts.entry(weight(word.word()))?.or_insert(0);
        *count = count.saturating_add(1);
        Ok(())
    })?;
    for (weight, count) in &counts {
        writeln!(out, "{name} weight {weight}: {count} words")?;
    }
    Ok(())
}

/// How many places of a word are not 0.
fn weight(word: &[u8]) -> usize {
    word.iter().filter(|symbol| **symbol != 0).count()
}
