// A code that is not the library's, over five symbols and not linear, made from public traits alone; alone and in joins.
ghost use Rattle.std.specs.Prelude.{◌≡◌, ℕ, List, [], ◌∷◌, ◌++◌, map, refl};
ghost use Rattle.std.specs.List.{range_with_len};
ghost use Rattle.codes.specs.Refusals.{outcome};
ghost use Rattle.theory.specs.Alphabets.{plus, minus};
ghost use Rattle.theory.specs.Calls.{sent, mended, read_back};
ghost use Rattle.theory.specs.Levels.{digits};
ghost use Rattle.trials.specs.Powers.{five, powers_checks, powers};
ghost use Rattle.trials.specs.PowersLemmas.{five_lawful, powers_keeps};

use alphabets::{Alphabet, add_modulo, negate_modulo};
use codes::code::Code;
use codes::refusals::Refusal;
use systematic::{Systematic, mend, read, send};

/// Five symbols, added modulo 5.
#[derive(Clone, Copy)]
struct Five;

impl Alphabet for Five {
    const Q: u8 = 5;

    const B: usize = 4;

    ghost symbols = { five };

    ghost Q = { 5 };

    ghost B = { 4 };

    ghost order_is = { refl };

    ghost width_is = { refl };

    ghost lawful = { five_lawful };

    fn add(x: u8, y: u8) -> u8 {
        add_modulo(Five::Q, x, y)
    }

    fn negate(x: u8) -> u8 {
        negate_modulo(Five::Q, x)
    }
}

const LENGTH: usize = 4;

const DIMENSION: usize = 1;

/// The word of x is x, x² + 1, x, x³. No word is all zeros, and sums of words are no words.
#[derive(Clone, Copy)]
struct Powers;

impl Systematic<LENGTH, DIMENSION> for Powers {
    type Symbols = Five;

    const DISTANCE: usize = 3;

    const MESSAGES: u8 = 5;

    ghost DISTANCE = { 3 };

    ghost MESSAGES = { 5 };

    ghost checks = { powers_checks };

    ghost keeps = { powers_keeps };

    ghost all = { refl };

    fn message(index: u8) -> [u8; DIMENSION] {
        [index % 5]
    }

    fn word(message: &[u8; DIMENSION]) -> [u8; LENGTH] {
        let [x] = *message;
        let wide = u32::from(x);
        [
            x,
            ((wide * wide + 1) % 5) as u8,
            x,
            (wide * wide * wide % 5) as u8,
        ]
    }
}

// As our systematic codes do it.
impl Code for Powers {
    type Symbols = Five;

    ghost meaning = { λ _. powers };

    ghost fit = { λ _. Unit {0} };

    ghost keeps = { λ code fit. powers_keeps };

    fn length(&self) -> usize {
        LENGTH
    }

    fn dimension(&self) -> usize {
        DIMENSION
    }

    fn distance(&self) -> usize {
        Powers::DISTANCE
    }

    fn working_length(&self) -> usize {
        LENGTH
    }

    fn carrier(&self, place: usize) -> Option<usize> {
        (place < DIMENSION).then_some(place)
    }

    fn send(&self, memory: &mut [u8]) -> Result<(), Refusal> {
        send::<Powers, LENGTH, DIMENSION>(memory)
    }

    fn mend(&self, memory: &mut [u8]) -> Result<(), Refusal> {
        mend::<Powers, LENGTH, DIMENSION>(memory)
    }

    fn read(&self, memory: &mut [u8]) -> Result<(), Refusal> {
        read::<Powers, LENGTH, DIMENSION>(memory)
    }
}

#[cfg(test)]
mod tests {
    use super::Powers;
    use crate::number;
    use codes::code::Code;
    use direct_sum::DirectSum;
    use plotkin::Plotkin;
    use puncture::Puncture;
    use shorten::Shorten;
    use std::test::Fail;

    #[test]
    fn it_sends_mends_and_reads(rt: HostRuntime) {
        let mut memory = [2, 170, 170, 170, 77];
        assert_eq!(rt; number(Powers.send(&mut memory)), 0);
        assert_eq!(rt; memory, [2, 0, 2, 3, 77]);
        memory = [255, 0, 9, 3, 77];
        assert_eq!(rt; number(Powers.mend(&mut memory)), 0);
        assert_eq!(rt; memory, [2, 0, 2, 3, 77]);
        assert_eq!(rt; number(Powers.read(&mut memory)), 0);
        assert_eq!(rt; memory, [2, 0, 0, 0, 77]);
        memory = [5, 0, 0, 0, 77];
        assert_eq!(rt; number(Powers.send(&mut memory)), 2);
    }

    #[test]
    fn it_is_not_linear(rt: HostRuntime) {
        // The sum of the word of 1 and itself, and the word of zeros.
        assert_eq!(rt; number(Powers.read(&mut [2, 4, 2, 2])), 4);
        assert_eq!(rt; number(Powers.read(&mut [0, 0, 0, 0])), 4);
        assert_eq!(rt; number(Powers.read(&mut [1, 2, 1, 1])), 0);
    }

    #[test]
    fn a_plotkin_join_of_it_mends(rt: HostRuntime) -> Result<(), Fail> {
        let code = Plotkin::new(Powers, Powers)?;
        assert_eq!(rt; (code.length(), code.dimension()), (8, 2));
        assert_eq!(rt; (code.distance(), code.working_length()), (3, 20));
        let mut memory = [170; 21];
        memory[0..8].copy_from_slice(&[2, 0, 2, 3, 1, 4, 1, 2]);
        assert_eq!(rt; number(code.mend(&mut memory)), 0);
        let mut after = [0; 21];
        after[0..8].copy_from_slice(&[2, 0, 2, 3, 1, 2, 1, 2]);
        after[20] = 170;
        assert_eq!(rt; memory, after);
        Ok(())
    }

    #[test]
    fn a_plotkin_join_of_it_refuses(rt: HostRuntime) -> Result<(), Fail> {
        let code = Plotkin::new(Powers, Powers)?;
        let received = [2, 0, 255, 3, 1, 4, 1, 2];
        let mut memory = [170; 21];
        memory[0..8].copy_from_slice(&received);
        assert_eq!(rt; number(code.mend(&mut memory)), 3);
        let mut after = [0; 21];
        after[0..8].copy_from_slice(&received);
        after[20] = 170;
        assert_eq!(rt; memory, after);
        Ok(())
    }

    #[test]
    fn a_sum_of_it_mends(rt: HostRuntime) -> Result<(), Fail> {
        let code = DirectSum::new(Powers, Powers)?;
        let mut memory = [170; 17];
        memory[0..8].copy_from_slice(&[1, 255, 1, 1, 3, 0, 255, 2]);
        assert_eq!(rt; number(code.mend(&mut memory)), 0);
        assert_eq!(rt;
            memory,
            [1, 2, 1, 1, 3, 0, 3, 2, 0, 0, 0, 0, 0, 0, 0, 0, 170]
        );
        Ok(())
    }

    #[test]
    fn it_is_punctured(rt: HostRuntime) -> Result<(), Fail> {
        let code = Puncture::new(Powers, 2)?;
        assert_eq!(rt; code.carrier(0), Some(0));
        let mut memory = [255, 0, 3, 170, 170, 170, 170, 170, 77];
        assert_eq!(rt; number(code.mend(&mut memory)), 0);
        assert_eq!(rt; memory, [2, 0, 3, 0, 0, 0, 0, 0, 77]);
        memory = [1, 0, 3, 170, 170, 170, 170, 170, 77];
        assert_eq!(rt; number(code.mend(&mut memory)), 3);
        assert_eq!(rt; memory, [1, 0, 3, 0, 0, 0, 0, 0, 77]);
        Ok(())
    }

    #[test]
    fn a_sum_of_it_is_shortened(rt: HostRuntime) -> Result<(), Fail> {
        let code = Shorten::new(DirectSum::new(Powers, Powers)?, 1)?;
        assert_eq!(rt; (code.length(), code.dimension()), (7, 1));
        assert_eq!(rt; (code.distance(), code.working_length()), (3, 24));
        let mut memory = [170; 25];
        memory[0..7].copy_from_slice(&[4, 2, 0, 4, 1, 0, 0]);
        assert_eq!(rt; number(code.mend(&mut memory)), 0);
        let mut after = [0; 25];
        after[0..7].copy_from_slice(&[4, 2, 4, 4, 1, 0, 0]);
        after[24] = 170;
        assert_eq!(rt; memory, after);
        Ok(())
    }

    #[test]
    fn joins_of_joins_of_it_mend(rt: HostRuntime) -> Result<(), Fail> {
        let left = Plotkin::new(Powers, Powers)?;
        let right = DirectSum::new(Powers, Powers)?;
        let code = Plotkin::new(left, right)?;
        assert_eq!(rt; (code.length(), code.dimension()), (16, 4));
        assert_eq!(rt; (code.distance(), code.working_length()), (3, 60));
        let mut memory = [170; 61];
        memory[0..16].copy_from_slice(&[2, 0, 2, 255, 1, 2, 1, 2, 3, 2, 3, 4, 4, 9, 4, 4]);
        assert_eq!(rt; number(code.mend(&mut memory)), 0);
        let mut after = [0; 61];
        after[0..16].copy_from_slice(&[2, 0, 2, 3, 1, 2, 1, 2, 3, 2, 3, 4, 4, 2, 4, 4]);
        after[60] = 170;
        assert_eq!(rt; memory, after);
        Ok(())
    }
}
