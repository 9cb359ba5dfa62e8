// Lent memory, and counting damage.
#[cfg(test)]
mod tests {
    use alphabets::Three;
    use codes::memory::{clear, copy_between, has_range, move_within};
    use codes::refusals::MakingRefusal;
    use codes::tolls::{count_marks, damage_between, first_mark};
    use theory::{longest_working_length, shown_messages, worked_examples};

    #[test]
    fn ranges_move_and_what_is_not_there_stays(rt: HostRuntime) {
        let mut memory = [1, 2, 3, 4, 5];
        move_within(&mut memory, 0, 3, 1);
        assert_eq!(rt; memory, [1, 1, 2, 3, 5]);
        move_within(&mut memory, 3, 3, 0);
        assert_eq!(rt; memory, [1, 1, 2, 3, 5]);
        clear(&mut memory, 1, 2);
        assert_eq!(rt; memory, [1, 0, 0, 3, 5]);
        clear(&mut memory, 4, 2);
        assert_eq!(rt; memory, [1, 0, 0, 3, 5]);
    }

    #[test]
    fn bytes_are_copied_between_slices(rt: HostRuntime) {
        let mut memory = [9, 9, 9, 9];
        copy_between(&mut memory, 1, &[5, 6, 7], 1, 2);
        assert_eq!(rt; memory, [9, 6, 7, 9]);
        copy_between(&mut memory, 3, &[5, 6, 7], 0, 2);
        assert_eq!(rt; memory, [9, 6, 7, 9]);
        assert!(rt; has_range(4, 4, 0) && !has_range(4, 3, 2) && !has_range(4, usize::MAX, 2));
    }

    #[test]
    fn damage_counts_wrong_and_marked_places(rt: HostRuntime) {
        let damage = damage_between::<Three>(&[2, 2, 2, 2, 2], &[2, 2, 255, 0, 2]);
        assert_eq!(rt; (damage.wrong, damage.marked), (1, 1));
        assert!(rt; damage.toll_below(4) && !damage.toll_below(3));
        let shorter = damage_between::<Three>(&[1], &[0, 9, 9]);
        assert_eq!(rt; (shorter.wrong, shorter.marked), (1, 0));
        assert_eq!(rt; first_mark::<Three>(&[0, 2, 3, 255]), Some(2));
        assert_eq!(rt; first_mark::<Three>(&[0, 2, 1]), None);
        assert_eq!(rt; count_marks::<Three>(&[0, 2, 3, 255]), 2);
    }

    #[test]
    fn the_making_refusals_have_their_numbers(rt: HostRuntime) {
        assert_eq!(rt; MakingRefusal::WorkingTooLong.number(), 6);
        assert_eq!(rt; MakingRefusal::OutOfRange.number(), 11);
    }

    #[test]
    fn the_making_refusals_of_the_joins_have_their_numbers(rt: HostRuntime) {
        assert_eq!(rt; MakingRefusal::LengthsDiffer.number(), 5);
        assert_eq!(rt; MakingRefusal::NoSuchPlace.number(), 7);
        assert_eq!(rt; MakingRefusal::DistanceTooSmall.number(), 8);
        assert_eq!(rt; MakingRefusal::DimensionTooSmall.number(), 9);
        assert_eq!(rt; MakingRefusal::NoCarrier.number(), 10);
    }

    #[test]
    fn the_definitions_answer_their_numbers(rt: HostRuntime) {
        assert_eq!(rt; worked_examples(), 15);
        assert_eq!(rt; (longest_working_length(), shown_messages()), (4096, 2));
    }
}
