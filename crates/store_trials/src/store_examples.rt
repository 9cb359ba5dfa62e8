// The cue store, call by call: what is refused in what order, and what every byte holds afterwards.
#[cfg(test)]
mod tests {
    use crate::number;
    use alphabets::{Three, Two};
    use codes::code::Code;
    use cues::{Plotting, StoreRefusal};
    use hexacode::Hexacode;
    use repetition::Repetition;
    use std::test::Fail;

    /// Two cues of two levels: three words of six cells each, with one filling symbol.
    fn plotting() -> Result<Plotting<Hexacode>, Fail> {
        Ok(Plotting::new(Hexacode, 2, 2)?)
    }

    /// One cue of one level over three symbols: six words of three cells each.
    fn threefold() -> Result<Plotting<Repetition<Three>>, Fail> {
        let code = Repetition::new(3)?;
        Ok(Plotting::new(code, 1, 1)?)
    }

    /// Holds the cue and lets it go again; answers the number of a refusal.
    fn held_for_a_while(store: &mut Plotting<Hexacode>, cue: usize) -> u8 {
        match store.hold(cue) {
            Ok(slip) => {
                store.let_go(slip);
                0
            }
            Err(refusal) => refusal.number(),
        }
    }

    #[test]
    fn making_is_refused_by_range_and_then_by_cells(rt: HostRuntime) -> Result<(), Fail> {
        assert_eq!(rt; number(Plotting::new(Hexacode, 0, 1)), 11);
        assert_eq!(rt; number(Plotting::new(Hexacode, 65, 513)), 11);
        assert_eq!(rt; number(Plotting::new(Hexacode, 1, 513)), 11);
        let code = Repetition::<Two>::new(64)?;
        assert_eq!(rt; number(Plotting::new(code, 64, 512)), 6);
        let store = plotting()?;
        assert_eq!(rt;
            (store.words(), store.cells(), store.working_length()),
            (3, 36, 6)
        );
        Ok(())
    }

    #[test]
    fn a_recording_is_recalled_from_dirty_memory(rt: HostRuntime) -> Result<(), Fail> {
        let mut store = plotting()?;
        let mut cells = [170; 37];
        let mut memory = [170; 7];
        assert_eq!(rt; number(store.record(0, &[200], &mut cells, &mut memory)), 0);
        assert_eq!(rt; memory, [0, 0, 0, 0, 0, 0, 170]);
        let mut written = [170; 37];
        written[0..6].copy_from_slice(&[3, 0, 2, 1, 0, 3]);
        written[6..18].fill(0);
        assert_eq!(rt; cells, written);
        cells[1] = 255;
        let mut levels = [9; 3];
        memory = [170; 7];
        assert_eq!(rt;
            number(store.recall(0, &cells, &mut levels, &mut memory)),
            0
        );
        assert_eq!(rt; levels, [200, 0, 9]);
        assert_eq!(rt; memory, [0, 0, 0, 0, 0, 0, 170]);
        Ok(())
    }

    #[test]
    fn a_touch_up_counts_what_it_changed(rt: HostRuntime) -> Result<(), Fail> {
        let mut store = plotting()?;
        let mut cells = [170; 37];
        let mut memory = [170; 7];
        assert_eq!(rt;
            number(store.record(1, &[7, 7], &mut cells, &mut memory)),
            0
        );
        let written = cells;
        cells[18] = 255;
        cells[24] = 255;
        cells[25] = 255;
        cells[26] = 255;
        cells[27] = 255;
        memory = [170; 7];
        let Ok(touched) = store.touch_up(1, &mut cells, &mut memory) else {
            return Err(Fail::new("refused"));
        };
        assert_eq!(rt; (touched.changed, touched.beyond_reach), (1, 1));
        assert_eq!(rt; cells[18], written[18]);
        assert_eq!(rt; cells[24], 255);
        assert_eq!(rt; memory, [0, 0, 0, 0, 0, 0, 170]);
        let running = store.start();
        assert_eq!(rt; running.tally(), 1);
        let mut levels = [9; 2];
        assert_eq!(rt;
            number(running.recall(1, &cells, &mut levels, &mut memory)),
            3
        );
        assert_eq!(rt; levels, [0, 0]);
        assert_eq!(rt; running.stop().tally(), 1);
        Ok(())
    }

    #[test]
    fn a_word_beyond_reach_comes_before_a_level_above_255(rt: HostRuntime) -> Result<(), Fail> {
        let mut store = threefold()?;
        let mut cells = [170; 18];
        let mut memory = [170; 4];
        assert_eq!(rt; number(store.record(0, &[], &mut cells, &mut memory)), 0);
        cells = [2; 18];
        let mut levels = [9; 2];
        memory = [170; 4];
        let above = store.recall(0, &cells, &mut levels, &mut memory);
        assert!(rt;
            matches!(
                above,
                Err(StoreRefusal::LevelOutOfRange { cue: 0, level: 0 })
            )
        );
        assert_eq!(rt; (levels, memory), ([0, 9], [0, 0, 0, 170]));
        cells[16] = 1;
        cells[17] = 0;
        levels = [9; 2];
        memory = [170; 4];
        assert_eq!(rt;
            number(store.recall(0, &cells, &mut levels, &mut memory)),
            3
        );
        assert_eq!(rt; (levels, memory), ([0, 9], [0, 0, 0, 170]));
        Ok(())
    }

    #[test]
    fn a_filling_symbol_counts_as_the_level_behind_the_last(rt: HostRuntime) -> Result<(), Fail> {
        let mut store = plotting()?;
        let mut cells = [0; 36];
        let mut memory = [170; 6];
        assert_eq!(rt; number(store.record(0, &[], &mut cells, &mut memory)), 0);
        cells[14] = 1;
        cells[15] = 1;
        cells[16] = 1;
        cells[17] = 1;
        let mut levels = [9; 2];
        let answer = store.recall(0, &cells, &mut levels, &mut memory);
        assert!(rt;
            matches!(
                answer,
                Err(StoreRefusal::LevelOutOfRange { cue: 0, level: 2 })
            )
        );
        assert_eq!(rt; levels, [0, 0]);
        Ok(())
    }

    #[test]
    fn checks_come_in_their_order(rt: HostRuntime) -> Result<(), Fail> {
        let mut store = plotting()?;
        let mut cells = [0; 36];
        let mut few = [0; 35];
        let mut memory = [170; 6];
        let mut little = [170; 5];
        let mut levels = [9; 2];
        assert_eq!(rt; number(store.record(2, &[0; 3], &mut few, &mut little)), 12);
        assert_eq!(rt; number(store.record(0, &[0; 3], &mut few, &mut memory)), 1);
        assert_eq!(rt;
            number(store.record(0, &[0; 3], &mut cells, &mut little)),
            1
        );
        assert_eq!(rt;
            number(store.record(0, &[0; 3], &mut cells, &mut memory)),
            13
        );
        assert_eq!(rt; number(store.touch_up(2, &mut few, &mut memory)), 12);
        assert_eq!(rt; number(store.touch_up(0, &mut few, &mut memory)), 1);
        assert_eq!(rt; number(store.touch_up(0, &mut cells, &mut memory)), 15);
        assert_eq!(rt; number(store.recall(2, &few, &mut levels, &mut memory)), 12);
        assert_eq!(rt; number(store.recall(0, &cells, &mut [9], &mut memory)), 1);
        assert_eq!(rt;
            number(store.recall(0, &cells, &mut levels, &mut memory)),
            15
        );
        assert_eq!(rt; number(store.wipe(2, &mut few)), 12);
        assert_eq!(rt; number(store.wipe(0, &mut few)), 1);
        assert_eq!(rt; (levels, memory, little), ([9; 2], [170; 6], [170; 5]));
        Ok(())
    }

    #[test]
    fn a_held_cue_is_recorded_by_its_slip_alone(rt: HostRuntime) -> Result<(), Fail> {
        let mut store = plotting()?;
        let mut cells = [0; 36];
        let mut memory = [170; 6];
        let Ok(slip) = store.hold(0) else {
            return Err(Fail::new("refused"));
        };
        let again = held_for_a_while(&mut store, 0);
        let many = number(store.record(0, &[0; 3], &mut cells, &mut memory));
        let plain = number(store.record(0, &[5], &mut cells, &mut memory));
        let wiped = number(store.wipe(0, &mut cells));
        let by_slip = number(store.record_by_slip(&slip, &[5], &mut cells, &mut memory));
        store.let_go(slip);
        assert_eq!(rt; (again, many, plain, wiped, by_slip), (14, 13, 14, 14, 0));
        assert_eq!(rt; held_for_a_while(&mut store, 2), 12);
        assert_eq!(rt; held_for_a_while(&mut store, 0), 0);
        assert_eq!(rt; number(store.wipe(0, &mut cells)), 0);
        assert_eq!(rt; cells, [0; 36]);
        Ok(())
    }
}
