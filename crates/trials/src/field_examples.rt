// Hamming and the hexacode, call by call.
#[cfg(test)]
mod tests {
    use crate::number;
    use codes::code::{Code, Showing};
    use hamming::Hamming;
    use hexacode::Hexacode;

    #[test]
    fn hamming_mends_one_wrong_place_or_two_marks(rt: HostRuntime) {
        let mut memory = [1, 0, 1, 1, 170, 170, 170, 77];
        assert_eq!(rt; number(Hamming.send(&mut memory)), 0);
        assert_eq!(rt; memory, [1, 0, 1, 1, 0, 0, 1, 77]);
        memory = [1, 0, 0, 1, 0, 0, 1, 77];
        assert_eq!(rt; number(Hamming.mend(&mut memory)), 0);
        assert_eq!(rt; memory, [1, 0, 1, 1, 0, 0, 1, 77]);
        memory = [255, 0, 1, 1, 0, 9, 1, 77];
        assert_eq!(rt; number(Hamming.mend(&mut memory)), 0);
        assert_eq!(rt; memory, [1, 0, 1, 1, 0, 0, 1, 77]);
        assert_eq!(rt; number(Hamming.read(&mut memory)), 0);
        assert_eq!(rt; memory, [1, 0, 1, 1, 0, 0, 0, 77]);
    }

    #[test]
    fn hamming_refuses_and_leaves_what_it_found(rt: HostRuntime) {
        let mut memory = [255, 0, 1, 1, 0, 9, 9, 77];
        assert_eq!(rt; number(Hamming.mend(&mut memory)), 3);
        assert_eq!(rt; number(Hamming.read(&mut memory)), 4);
        assert_eq!(rt; number(Hamming.send(&mut memory)), 2);
        assert_eq!(rt; memory, [255, 0, 1, 1, 0, 9, 9, 77]);
        assert_eq!(rt; number(Hamming.send(&mut [1, 0, 1, 9])), 1);
    }

    #[test]
    fn hexacode_mends_three_marks_and_refuses_four(rt: HostRuntime) {
        let mut memory = [1, 2, 3, 170, 170, 170, 77];
        assert_eq!(rt; number(Hexacode.send(&mut memory)), 0);
        assert_eq!(rt; memory, [1, 2, 3, 0, 3, 0, 77]);
        assert_eq!(rt; number(Hexacode.read(&mut memory)), 0);
        assert_eq!(rt; memory, [1, 2, 3, 0, 0, 0, 77]);
        memory = [1, 0, 0, 255, 200, 4, 77];
        assert_eq!(rt; number(Hexacode.mend(&mut memory)), 0);
        assert_eq!(rt; memory, [1, 0, 0, 1, 3, 2, 77]);
        memory = [1, 0, 255, 255, 255, 255, 77];
        assert_eq!(rt; number(Hexacode.mend(&mut memory)), 3);
        assert_eq!(rt; number(Hexacode.read(&mut memory)), 4);
        assert_eq!(rt; memory, [1, 0, 255, 255, 255, 255, 77]);
    }

    #[test]
    fn both_answer_their_questions_and_show_a_pair(rt: HostRuntime) {
        assert_eq!(rt; (Hamming.length(), Hamming.dimension()), (7, 4));
        assert_eq!(rt; (Hamming.distance(), Hamming.working_length()), (3, 7));
        assert_eq!(rt; (Hexacode.length(), Hexacode.dimension()), (6, 3));
        assert_eq!(rt; (Hexacode.distance(), Hexacode.working_length()), (4, 6));
        assert_eq!(rt; (Hamming.carrier(3), Hamming.carrier(4)), (Some(3), None));
        assert_eq!(rt; (Hexacode.carrier(2), Hexacode.carrier(3)), (Some(2), None));
        let mut memory = [77; 15];
        assert_eq!(rt; number(Hamming.show(&mut memory)), 0);
        assert_eq!(rt; memory, [0, 0, 0, 0, 0, 1, 0, 0, 0, 0, 0, 0, 0, 0, 77]);
        let mut shorter = [77; 13];
        assert_eq!(rt; number(Hexacode.show(&mut shorter)), 0);
        assert_eq!(rt; shorter, [0, 0, 0, 1, 0, 0, 0, 0, 0, 0, 0, 0, 77]);
    }

    #[test]
    fn systematic_codes_are_called_by_their_type(rt: HostRuntime) {
        let mut memory = [1, 2, 3, 170, 170, 170, 77];
        assert_eq!(rt; number(systematic::send::<Hexacode, 6, 3>(&mut memory)), 0);
        assert_eq!(rt; memory, [1, 2, 3, 0, 3, 0, 77]);
        memory = [1, 0, 0, 255, 200, 4, 77];
        assert_eq!(rt; number(systematic::mend::<Hexacode, 6, 3>(&mut memory)), 0);
        assert_eq!(rt; memory, [1, 0, 0, 1, 3, 2, 77]);
        assert_eq!(rt; number(systematic::read::<Hexacode, 6, 3>(&mut memory)), 0);
        assert_eq!(rt; memory, [1, 0, 0, 0, 0, 0, 77]);
        assert_eq!(rt;
            number(systematic::read::<Hexacode, 6, 3>(&mut [1, 0, 0, 1, 3])),
            1
        );
    }
}
