// Joins of codes, call by call.
#[cfg(test)]
mod tests {
    use crate::number;
    use alphabets::Two;
    use codes::code::Code;
    use codes::refusals::MakingRefusal;
    use direct_sum::DirectSum;
    use hexacode::Hexacode;
    use repetition::Repetition;
    use std::test::Fail;

    fn copies(n: usize) -> Result<Repetition<Two>, MakingRefusal> {
        Repetition::new(n)
    }

    fn split() -> Result<DirectSum<Repetition<Two>, Repetition<Two>>, MakingRefusal> {
        DirectSum::new(copies(1)?, copies(2)?)
    }

    #[test]
    fn a_sum_answers_its_questions(rt: HostRuntime) -> Result<(), Fail> {
        let code = split()?;
        assert_eq!(rt; (code.length(), code.dimension()), (3, 2));
        assert_eq!(rt; (code.distance(), code.working_length()), (1, 6));
        assert_eq!(rt; (code.carrier(0), code.carrier(1)), (Some(0), Some(1)));
        assert_eq!(rt; code.carrier(2), None);
        Ok(())
    }

    #[test]
    fn a_sum_sends_and_reads_in_dirty_memory(rt: HostRuntime) -> Result<(), Fail> {
        let code = split()?;
        let mut memory = [1, 0, 170, 170, 170, 170, 77];
        assert_eq!(rt; number(code.send(&mut memory)), 0);
        assert_eq!(rt; memory, [1, 0, 0, 0, 0, 0, 77]);
        memory = [0, 1, 1, 170, 170, 170, 77];
        assert_eq!(rt; number(code.read(&mut memory)), 0);
        assert_eq!(rt; memory, [0, 1, 0, 0, 0, 0, 77]);
        memory = [0, 1, 0, 170, 170, 170, 77];
        assert_eq!(rt; number(code.read(&mut memory)), 4);
        assert_eq!(rt; memory, [0, 1, 0, 0, 0, 0, 77]);
        memory = [1, 9, 170, 170, 170, 170, 77];
        assert_eq!(rt; number(code.send(&mut memory)), 2);
        assert_eq!(rt; number(code.send(&mut [1, 1, 1, 1, 1])), 1);
        Ok(())
    }

    #[test]
    fn a_sum_mends_by_the_toll_of_the_whole_word(rt: HostRuntime) -> Result<(), Fail> {
        let code = split()?;
        let mut memory = [1, 0, 255, 170, 170, 170, 77];
        assert_eq!(rt; number(code.mend(&mut memory)), 3);
        assert_eq!(rt; memory, [1, 0, 255, 0, 0, 0, 77]);
        Ok(())
    }

    #[test]
    fn a_sum_of_hexacodes_mends_damage_in_both_parts(rt: HostRuntime) -> Result<(), Fail> {
        let code = DirectSum::new(Hexacode, Hexacode)?;
        let mut memory = [170; 25];
        memory[0..12].copy_from_slice(&[1, 2, 255, 0, 3, 0, 1, 0, 0, 2, 3, 2]);
        assert_eq!(rt; number(code.mend(&mut memory)), 0);
        let mut mended = [0; 25];
        mended[0..12].copy_from_slice(&[1, 2, 3, 0, 3, 0, 1, 0, 0, 1, 3, 2]);
        mended[24] = 170;
        assert_eq!(rt; memory, mended);
        Ok(())
    }
}
