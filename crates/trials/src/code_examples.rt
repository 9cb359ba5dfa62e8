// Repetition and parity, call by call, with refusals in their order.
#[cfg(test)]
mod tests {
    use crate::number;
    use alphabets::Three;
    use codes::code::{Code, Showing};
    use codes::refusals::MakingRefusal;
    use codes::trips::{mend_in_reach, read_then_send, send_then_mend, send_then_read};
    use parity::Parity;
    use repetition::Repetition;
    use std::test::Fail;

    fn repetition_5() -> Result<Repetition<Three>, MakingRefusal> {
        Repetition::new(5)
    }

    fn parity_3() -> Result<Parity<Three>, MakingRefusal> {
        Parity::new(3)
    }

    #[test]
    fn repetition_sends_mends_and_reads_in_dirty_memory(rt: HostRuntime) -> Result<(), Fail> {
        let code = repetition_5()?;
        let mut memory = [2, 170, 170, 170, 170, 77];
        assert_eq!(rt; number(code.send(&mut memory)), 0);
        assert_eq!(rt; memory, [2, 2, 2, 2, 2, 77]);
        memory = [2, 2, 255, 0, 2, 77];
        assert_eq!(rt; number(code.mend(&mut memory)), 0);
        assert_eq!(rt; memory, [2, 2, 2, 2, 2, 77]);
        assert_eq!(rt; number(code.read(&mut memory)), 0);
        assert_eq!(rt; memory, [2, 0, 0, 0, 0, 77]);
        Ok(())
    }

    #[test]
    fn repetition_refuses_and_leaves_what_it_found(rt: HostRuntime) -> Result<(), Fail> {
        let code = repetition_5()?;
        let mut memory = [2, 2, 255, 0, 1, 77];
        assert_eq!(rt; number(code.mend(&mut memory)), 3);
        assert_eq!(rt; number(code.read(&mut memory)), 4);
        assert_eq!(rt; memory, [2, 2, 255, 0, 1, 77]);
        let mut short = [9, 9, 9, 9];
        assert_eq!(rt; number(code.send(&mut short)), 1);
        let mut marked = [9, 9, 9, 9, 9];
        assert_eq!(rt; number(code.send(&mut marked)), 2);
        assert_eq!(rt; marked, [9, 9, 9, 9, 9]);
        Ok(())
    }

    #[test]
    fn repetition_answers_its_questions_and_shows_a_pair(rt: HostRuntime) -> Result<(), Fail> {
        let code = repetition_5()?;
        assert_eq!(rt; (code.length(), code.dimension()), (5, 1));
        assert_eq!(rt; (code.distance(), code.working_length()), (5, 5));
        assert_eq!(rt; (code.carrier(0), code.carrier(1)), (Some(0), None));
        let mut memory = [77; 11];
        assert_eq!(rt; number(code.show(&mut memory)), 0);
        assert_eq!(rt; memory, [0, 1, 0, 0, 0, 0, 0, 0, 0, 0, 77]);
        assert!(rt; Repetition::<Three>::new(0).is_err() && Repetition::<Three>::new(65).is_err());
        Ok(())
    }

    #[test]
    fn parity_sends_mends_and_reads_in_dirty_memory(rt: HostRuntime) -> Result<(), Fail> {
        let code = parity_3()?;
        let mut memory = [1, 0, 170, 77];
        assert_eq!(rt; number(code.send(&mut memory)), 0);
        assert_eq!(rt; memory, [1, 0, 2, 77]);
        memory = [1, 255, 2, 77];
        assert_eq!(rt; number(code.mend(&mut memory)), 0);
        assert_eq!(rt; memory, [1, 0, 2, 77]);
        assert_eq!(rt; number(code.read(&mut memory)), 0);
        assert_eq!(rt; memory, [1, 0, 0, 77]);
        Ok(())
    }

    #[test]
    fn parity_refuses_and_leaves_what_it_found(rt: HostRuntime) -> Result<(), Fail> {
        let code = parity_3()?;
        let mut memory = [1, 1, 2, 77];
        assert_eq!(rt; number(code.mend(&mut memory)), 3);
        assert_eq!(rt; number(code.read(&mut memory)), 4);
        assert_eq!(rt; memory, [1, 1, 2, 77]);
        memory = [1, 255, 255, 77];
        assert_eq!(rt; number(code.mend(&mut memory)), 3);
        memory = [1, 9, 9, 77];
        assert_eq!(rt; number(code.send(&mut memory)), 2);
        assert_eq!(rt; memory, [1, 9, 9, 77]);
        assert!(rt; Parity::<Three>::new(1).is_err() && Parity::<Three>::new(65).is_err());
        Ok(())
    }

    #[test]
    fn parity_answers_its_questions_and_shows_a_pair(rt: HostRuntime) -> Result<(), Fail> {
        let code = parity_3()?;
        assert_eq!(rt; (code.length(), code.dimension()), (3, 2));
        assert_eq!(rt; (code.distance(), code.working_length()), (2, 3));
        assert_eq!(rt; (code.carrier(1), code.carrier(2)), (Some(1), None));
        let mut memory = [77; 7];
        assert_eq!(rt; number(code.show(&mut memory)), 0);
        assert_eq!(rt; memory, [0, 0, 1, 0, 0, 0, 77]);
        Ok(())
    }

    #[test]
    fn calls_in_a_row_come_back(rt: HostRuntime) -> Result<(), Fail> {
        let code = parity_3()?;
        let mut memory = [2, 2, 170, 77];
        assert_eq!(rt; number(send_then_read(&code, &mut memory)), 0);
        assert_eq!(rt; memory, [2, 2, 0, 77]);
        assert_eq!(rt; number(send_then_mend(&code, &mut memory)), 0);
        assert_eq!(rt; memory, [2, 2, 2, 77]);
        assert_eq!(rt; number(read_then_send(&code, &mut memory)), 0);
        assert_eq!(rt; memory, [2, 2, 2, 77]);
        memory = [2, 200, 2, 77];
        assert_eq!(rt; number(mend_in_reach(&code, &mut memory)), 0);
        assert_eq!(rt; memory, [2, 2, 2, 77]);
        Ok(())
    }
}
