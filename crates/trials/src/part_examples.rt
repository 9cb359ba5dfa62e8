// Calls in a middle part of the memory, and gathering results.
#[cfg(test)]
mod tests {
    use crate::number;
    use alphabets::Three;
    use codes::code::Code;
    use codes::refusals::Refusal;
    use hamming::Hamming;
    use hexacode::Hexacode;
    use parts::asked::numbers_of;
    use parts::calls::{call_in_part, send_part};
    use parts::combination::Combination;
    use parts::combining::combine;
    use parts::gathering::gather;
    use parts::part::Part;
    use std::test::Fail;

    #[test]
    fn a_code_works_in_a_middle_part(rt: HostRuntime) -> Result<(), Fail> {
        let part = Part::new(Hexacode)?;
        let mut memory = [1, 2, 3, 99, 170, 170, 170, 170, 170, 170, 77];
        assert_eq!(rt; number(part.send(&mut memory, 0, 4)), 0);
        assert_eq!(rt; memory, [1, 2, 3, 99, 1, 2, 3, 0, 3, 0, 77]);
        memory = [1, 2, 3, 255, 255, 0, 170, 170, 170, 170, 77];
        assert_eq!(rt; number(part.mend(&mut memory, 0, 4)), 0);
        assert_eq!(rt; memory, [1, 2, 3, 255, 1, 2, 3, 0, 3, 0, 77]);
        assert_eq!(rt; number(part.read(&mut memory, 4, 3)), 0);
        assert_eq!(rt; memory, [1, 2, 3, 1, 2, 3, 0, 0, 0, 0, 77]);
        Ok(())
    }

    #[test]
    fn a_part_that_is_not_there_is_short_memory(rt: HostRuntime) -> Result<(), Fail> {
        let part = Part::new(Hamming)?;
        let mut memory = [1, 0, 1, 1, 9, 9];
        assert_eq!(rt; number(part.send(&mut memory, 0, 1)), 1);
        assert_eq!(rt; memory, [1, 0, 1, 1, 9, 9]);
        Ok(())
    }

    #[test]
    fn a_word_is_mended_with_its_lost_place(rt: HostRuntime) -> Result<(), Fail> {
        let part = Part::new(Hexacode)?;
        let mut memory = [1, 2, 0, 3, 0, 9, 170, 170, 170, 170, 170, 170, 77];
        assert_eq!(rt; number(part.mend_widened(&mut memory, 2, 255)), 0);
        assert_eq!(rt; memory, [1, 2, 0, 3, 0, 9, 1, 2, 3, 0, 3, 0, 77]);
        Ok(())
    }

    #[test]
    fn a_word_is_taken_from_another(rt: HostRuntime) {
        let mut memory = [1, 2, 0, 2, 2, 255, 9, 77];
        combine::<Three>(&mut memory, Combination::Difference, 0, 3, 3, 0);
        assert_eq!(rt; memory, [2, 0, 255, 2, 2, 255, 9, 77]);
        combine::<Three>(&mut memory, Combination::Difference, 0, 3, 6, 0);
        assert_eq!(rt; memory, [2, 0, 255, 2, 2, 255, 9, 77]);
    }

    #[test]
    fn results_are_gathered_in_front(rt: HostRuntime) {
        let mut memory = [9, 9, 9, 1, 2, 9, 3, 77];
        gather(&mut memory, 3, 2, 6, 1, 7);
        assert_eq!(rt; memory, [1, 2, 3, 0, 0, 0, 0, 77]);
        gather(&mut memory, 0, 5, 0, 5, 7);
        assert_eq!(rt; memory, [1, 2, 3, 0, 0, 0, 0, 77]);
    }

    #[test]
    fn a_code_answers_its_numbers(rt: HostRuntime) -> Result<(), Fail> {
        let Some(numbers) = numbers_of(&Hamming) else {
            return Err(Fail::new("no numbers"));
        };
        assert_eq!(rt; (numbers.length, numbers.dimension), (7, 4));
        assert_eq!(rt; (numbers.distance, numbers.working), (3, 7));
        Ok(())
    }

    #[test]
    fn a_borrowed_code_is_called_in_a_middle_part(rt: HostRuntime) {
        let code = &Hexacode;
        let mut memory = [1, 2, 3, 99, 170, 170, 170, 170, 170, 170, 77];
        let sent = send_part(code, &mut memory, 0, 3, 4, 6);
        assert_eq!(rt; number(sent), 0);
        assert_eq!(rt; memory, [1, 2, 3, 99, 1, 2, 3, 0, 3, 0, 77]);
    }

    #[test]
    fn a_closure_is_called_in_a_middle_part(rt: HostRuntime) {
        let code = &Hexacode;
        let mut memory = [1, 2, 3, 99, 170, 170, 170, 170, 170, 170, 77];
        let sent = call_in_part(&mut memory, 0, 3, 4, 6, |part| code.send(part));
        assert_eq!(rt; number(sent), 0);
        assert_eq!(rt; memory, [1, 2, 3, 99, 1, 2, 3, 0, 3, 0, 77]);
        let turn = |part: &mut [u8]| {
            part.reverse();
            Err(Refusal::NotAWord)
        };
        let refused = call_in_part(&mut memory, 4, 1, 8, 3, turn);
        assert_eq!(rt; number(refused), 4);
        assert_eq!(rt; memory, [1, 2, 3, 99, 1, 2, 3, 0, 77, 0, 1]);
        let short = call_in_part(&mut memory, 4, 1, 8, 4, |_part| Ok(()));
        assert_eq!(rt; number(short), 1);
        assert_eq!(rt; memory, [1, 2, 3, 99, 1, 2, 3, 0, 77, 0, 1]);
    }
}
