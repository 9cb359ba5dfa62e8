// Plotkin joins, call by call: the four-symbol pile of parity and the hexacode.
#[cfg(test)]
mod tests {
    use crate::{making_number, number};
    use alphabets::{Four, Two};
    use codes::code::{Code, Showing};
    use codes::memory::copy_between;
    use codes::refusals::MakingRefusal;
    use hexacode::Hexacode;
    use parity::Parity;
    use plotkin::Plotkin;
    use std::test::Fail;

    const WORD: [u8; 12] = [1, 2, 3, 0, 1, 1, 0, 2, 3, 1, 2, 3];

    type Once = Plotkin<Parity<Two>, Parity<Two>>;

    type Twice = Plotkin<Once, Once>;

    type Thrice = Plotkin<Twice, Twice>;

    fn four_pile() -> Result<Plotkin<Parity<Four>, Hexacode>, MakingRefusal> {
        Plotkin::new(Parity::new(6)?, Hexacode)
    }

    fn once() -> Result<Once, MakingRefusal> {
        Plotkin::new(Parity::new(64)?, Parity::new(64)?)
    }

    fn twice() -> Result<Twice, MakingRefusal> {
        Plotkin::new(once()?, once()?)
    }

    fn thrice() -> Result<Thrice, MakingRefusal> {
        Plotkin::new(twice()?, twice()?)
    }

    // These 12 bytes, zeros up to place 30, and a byte that no call touches.
    fn settled(first: [u8; 12]) -> [u8; 31] {
        let mut memory = [0; 31];
        memory[0..12].copy_from_slice(&first);
        memory[30] = 170;
        memory
    }

    #[test]
    fn the_four_symbol_pile_answers_its_questions(rt: HostRuntime) -> Result<(), Fail> {
        let code = four_pile()?;
        assert_eq!(rt; (code.length(), code.dimension()), (12, 8));
        assert_eq!(rt; (code.distance(), code.working_length()), (4, 30));
        assert_eq!(rt; (code.carrier(4), code.carrier(5)), (Some(4), None));
        Ok(())
    }

    #[test]
    fn it_sends_and_reads(rt: HostRuntime) -> Result<(), Fail> {
        let code = four_pile()?;
        let mut memory = [170; 31];
        memory[0..8].copy_from_slice(&[1, 2, 3, 0, 1, 1, 0, 0]);
        assert_eq!(rt; number(code.send(&mut memory)), 0);
        assert_eq!(rt; memory, settled(WORD));
        memory = [170; 31];
        memory[0..12].copy_from_slice(&WORD);
        assert_eq!(rt; number(code.read(&mut memory)), 0);
        assert_eq!(rt; memory, settled([1, 2, 3, 0, 1, 1, 0, 0, 0, 0, 0, 0]));
        Ok(())
    }

    #[test]
    fn it_reads_no_other_bytes(rt: HostRuntime) -> Result<(), Fail> {
        let code = four_pile()?;
        let mut memory = [170; 31];
        let received = [1, 2, 3, 0, 1, 1, 0, 2, 3, 1, 2, 2];
        memory[0..12].copy_from_slice(&received);
        assert_eq!(rt; number(code.read(&mut memory)), 4);
        assert_eq!(rt; memory, settled(received));
        Ok(())
    }

    #[test]
    fn it_mends_a_wrong_place_and_a_mark(rt: HostRuntime) -> Result<(), Fail> {
        let code = four_pile()?;
        let mut memory = [170; 31];
        memory[0..12].copy_from_slice(&[1, 0, 3, 0, 1, 1, 255, 2, 3, 1, 2, 3]);
        assert_eq!(rt; number(code.mend(&mut memory)), 0);
        assert_eq!(rt; memory, settled(WORD));
        Ok(())
    }

    // Each test names its bytes and its number in full.
    #[test]
    fn it_refuses_two_marks_and_a_wrong_place(rt: HostRuntime) -> Result<(), Fail> {
        let code = four_pile()?;
        let mut memory = [170; 31];
        let received = [255, 255, 3, 0, 1, 1, 0, 1, 3, 1, 2, 3];
        memory[0..12].copy_from_slice(&received);
        assert_eq!(rt; number(code.mend(&mut memory)), 3);
        assert_eq!(rt; memory, settled(received));
        Ok(())
    }

    #[test]
    fn what_another_word_left_in_memory_does_not_count(rt: HostRuntime) -> Result<(), Fail> {
        let code = four_pile()?;
        let mut memory = [170; 31];
        copy_between(
            &mut memory,
            0,
            &[3, 3, 3, 3, 3, 3, 0, 0, 0, 0, 255, 255],
            0,
            12,
        );
        assert_eq!(rt; number(code.mend(&mut memory)), 0);
        assert_eq!(rt; memory, settled([3, 3, 3, 3, 3, 3, 0, 0, 0, 0, 3, 3]));
        copy_between(
            &mut memory,
            0,
            &[0, 0, 255, 0, 0, 0, 0, 3, 0, 0, 0, 0],
            0,
            12,
        );
        assert_eq!(rt; number(code.mend(&mut memory)), 0);
        assert_eq!(rt; memory, settled([0; 12]));
        Ok(())
    }

    #[test]
    fn it_shows_two_messages_at_the_distance(rt: HostRuntime) -> Result<(), Fail> {
        let code = four_pile()?;
        let mut memory = [170; 61];
        assert_eq!(rt; number(code.show(&mut memory)), 0);
        let mut shown = [0; 61];
        shown[8] = 1;
        shown[60] = 170;
        assert_eq!(rt; memory, shown);
        Ok(())
    }

    #[test]
    fn makings_are_refused_in_their_order(rt: HostRuntime) -> Result<(), Fail> {
        assert_eq!(rt; making_number(Plotkin::new(Parity::new(5)?, Hexacode)), 5);
        assert_eq!(rt; making_number(Plotkin::new(thrice()?, twice()?)), 5);
        assert_eq!(rt; making_number(Plotkin::new(thrice()?, thrice()?)), 6);
        Ok(())
    }
}
