// Puncturing and shortening, call by call, and what they do to bytes.
#[cfg(test)]
mod tests {
    use crate::{making_number, number};
    use alphabets::Two;
    use codes::code::Code;
    use codes::refusals::MakingRefusal;
    use hamming::Hamming;
    use hexacode::Hexacode;
    use parts::gaps::{carrier_without, narrow, narrow_to_front, widen};
    use puncture::Puncture;
    use repetition::Repetition;
    use shorten::Shorten;
    use std::test::Fail;

    fn punctured() -> Result<Puncture<Hexacode>, MakingRefusal> {
        Puncture::new(Hexacode, 2)
    }

    fn shortened() -> Result<Shorten<Hamming>, MakingRefusal> {
        Shorten::new(Hamming, 0)
    }

    fn one_symbol() -> Result<Repetition<Two>, MakingRefusal> {
        Repetition::new(1)
    }

    #[test]
    fn bytes_are_written_with_a_place_more_or_less(rt: HostRuntime) {
        let mut memory = [1, 2, 3, 9, 9, 9];
        widen(&mut memory, 0, 3, 1, 7, 1);
        assert_eq!(rt; memory, [1, 1, 7, 2, 3, 9]);
        narrow(&mut memory, 1, 4, 1, 0);
        assert_eq!(rt; memory, [1, 2, 3, 2, 3, 9]);
        widen(&mut memory, 0, 3, 4, 7, 1);
        widen(&mut memory, 1, 3, 0, 7, 0);
        narrow(&mut memory, 3, usize::MAX, 0, 0);
        assert_eq!(rt; memory, [1, 2, 3, 2, 3, 9]);
        assert_eq!(rt;
            (carrier_without(Some(1), 2), carrier_without(Some(2), 2)),
            (Some(1), None)
        );
        assert_eq!(rt;
            (carrier_without(Some(3), 2), carrier_without(None, 2)),
            (Some(2), None)
        );
    }

    #[test]
    fn a_punctured_hexacode_answers_and_sends(rt: HostRuntime) -> Result<(), Fail> {
        let code = punctured()?;
        assert_eq!(rt; (code.length(), code.dimension()), (5, 3));
        assert_eq!(rt; (code.distance(), code.working_length()), (3, 12));
        assert_eq!(rt; (code.carrier(1), code.carrier(2)), (Some(1), None));
        let mut memory = [1, 2, 3, 170, 170, 170, 170, 170, 170, 170, 170, 170, 77];
        assert_eq!(rt; number(code.send(&mut memory)), 0);
        assert_eq!(rt; memory, [1, 2, 0, 3, 0, 0, 0, 0, 0, 0, 0, 0, 77]);
        memory = [1, 2, 4, 170, 170, 170, 170, 170, 170, 170, 170, 170, 77];
        assert_eq!(rt; number(code.send(&mut memory)), 2);
        assert_eq!(rt;
            number(code.send(&mut [1, 2, 3, 0, 0, 0, 0, 0, 0, 0, 0])),
            1
        );
        Ok(())
    }

    #[test]
    fn a_punctured_hexacode_mends_and_reads(rt: HostRuntime) -> Result<(), Fail> {
        let code = punctured()?;
        let mut memory = [1, 2, 255, 3, 255, 170, 170, 170, 170, 170, 170, 170, 77];
        assert_eq!(rt; number(code.mend(&mut memory)), 0);
        assert_eq!(rt; memory, [1, 2, 0, 3, 0, 0, 0, 0, 0, 0, 0, 0, 77]);
        assert_eq!(rt; number(code.read(&mut memory)), 0);
        assert_eq!(rt; memory, [1, 2, 3, 0, 0, 0, 0, 0, 0, 0, 0, 0, 77]);
        memory = [1, 2, 0, 3, 255, 170, 170, 170, 170, 170, 170, 170, 77];
        assert_eq!(rt; number(code.read(&mut memory)), 4);
        assert_eq!(rt; memory, [1, 2, 0, 3, 255, 0, 0, 0, 0, 0, 0, 0, 77]);
        memory = [1, 2, 255, 255, 255, 170, 170, 170, 170, 170, 170, 170, 77];
        assert_eq!(rt; number(code.mend(&mut memory)), 3);
        assert_eq!(rt; memory, [1, 2, 255, 255, 255, 0, 0, 0, 0, 0, 0, 0, 77]);
        Ok(())
    }

    #[test]
    fn a_shortened_hamming_code_answers_sends_and_reads(rt: HostRuntime) -> Result<(), Fail> {
        let code = shortened()?;
        assert_eq!(rt; (code.length(), code.dimension()), (6, 3));
        assert_eq!(rt; (code.distance(), code.working_length()), (3, 14));
        assert_eq!(rt; (code.carrier(2), code.carrier(3)), (Some(2), None));
        assert_eq!(rt; code.carrier(usize::MAX), None);
        let mut memory = [170; 15];
        memory[0..3].copy_from_slice(&[1, 0, 0]);
        assert_eq!(rt; number(code.send(&mut memory)), 0);
        assert_eq!(rt; memory, [1, 0, 0, 1, 1, 0, 0, 0, 0, 0, 0, 0, 0, 0, 170]);
        assert_eq!(rt; number(code.read(&mut memory)), 0);
        assert_eq!(rt; memory, [1, 0, 0, 0, 0, 0, 0, 0, 0, 0, 0, 0, 0, 0, 170]);
        memory[3..6].copy_from_slice(&[1, 1, 1]);
        assert_eq!(rt; number(code.read(&mut memory)), 4);
        assert_eq!(rt; memory, [1, 0, 0, 1, 1, 1, 0, 0, 0, 0, 0, 0, 0, 0, 170]);
        Ok(())
    }

    #[test]
    fn a_shortened_hexacode_mends_a_mark_and_a_wrong_place(rt: HostRuntime) -> Result<(), Fail> {
        let code = Shorten::new(Hexacode, 0)?;
        let mut memory = [2, 255, 1, 0, 3, 170, 170, 170, 170, 170, 170, 170, 77];
        assert_eq!(rt; number(code.mend(&mut memory)), 0);
        assert_eq!(rt; memory, [2, 3, 1, 0, 2, 0, 0, 0, 0, 0, 0, 0, 77]);
        // Below, the word of 1 0 0 is in reach, but its message has no 0 at the place.
        memory = [0, 0, 1, 3, 2, 170, 170, 170, 170, 170, 170, 170, 77];
        assert_eq!(rt; number(code.mend(&mut memory)), 3);
        assert_eq!(rt; memory, [0, 0, 1, 3, 2, 0, 0, 0, 0, 0, 0, 0, 77]);
        Ok(())
    }

    #[test]
    fn makings_are_refused_in_their_order(rt: HostRuntime) -> Result<(), Fail> {
        assert_eq!(rt; making_number(Puncture::new(one_symbol()?, 1)), 7);
        assert_eq!(rt; making_number(Puncture::new(one_symbol()?, 0)), 8);
        assert_eq!(rt; making_number(Shorten::new(one_symbol()?, 1)), 7);
        assert_eq!(rt; making_number(Shorten::new(one_symbol()?, 0)), 9);
        assert_eq!(rt; making_number(Shorten::new(punctured()?, 2)), 10);
        assert_eq!(rt; making_number(Shorten::new(punctured()?, 1)), 0);
        Ok(())
    }
}
