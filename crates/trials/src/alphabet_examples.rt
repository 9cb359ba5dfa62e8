// Sums, negatives and products, with marks.
#[cfg(test)]
mod tests {
    use alphabets::{Alphabet, Four, Three, Two, add_modulo, negate_modulo};

    #[test]
    fn symbols_add_and_marks_stay_marks(rt: HostRuntime) {
        assert_eq!(rt; Two::add(1, 1), 0);
        assert_eq!(rt; Two::add(1, 2), 255);
        assert_eq!(rt; Three::add(2, 2), 1);
        assert_eq!(rt; Three::add(3, 0), 255);
        assert_eq!(rt; Four::add(2, 3), 1);
        assert_eq!(rt; Four::add(0, 255), 255);
    }

    #[test]
    fn negatives_cancel(rt: HostRuntime) {
        assert_eq!(rt; Two::negate(1), 1);
        assert_eq!(rt; Three::negate(1), 2);
        assert_eq!(rt; Three::negate(0), 0);
        assert_eq!(rt; Four::negate(3), 3);
        assert_eq!(rt; Three::negate(9), 255);
    }

    #[test]
    fn products_go_round_by_omega(rt: HostRuntime) {
        assert_eq!(rt; Four::multiply(2, 2), 3);
        assert_eq!(rt; Four::multiply(2, 3), 1);
        assert_eq!(rt; Four::multiply(3, 3), 2);
        assert_eq!(rt; Four::multiply(0, 3), 0);
        assert_eq!(rt; Four::multiply(4, 0), 255);
    }

    #[test]
    fn constants_are_answered(rt: HostRuntime) {
        assert_eq!(rt; (Two::order(), Two::width()), (2, 8));
        assert_eq!(rt; (Three::order(), Three::width()), (3, 6));
        assert_eq!(rt; (Four::order(), Four::width()), (4, 4));
    }

    #[test]
    fn bytes_are_added_modulo_any_order(rt: HostRuntime) {
        assert_eq!(rt; (add_modulo(7, 5, 6), add_modulo(255, 254, 254)), (4, 253));
        assert_eq!(rt; (add_modulo(7, 7, 0), add_modulo(0, 0, 0)), (255, 255));
        assert_eq!(rt; (negate_modulo(7, 2), negate_modulo(7, 0)), (5, 0));
        assert_eq!(rt; (negate_modulo(7, 7), negate_modulo(0, 0)), (255, 255));
    }
}
