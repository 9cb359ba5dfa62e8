// The first-order Reed-Muller codes with their numbers.
#[cfg(test)]
mod tests {
    use codes::code::Code;
    use piles::{ReedMuller1, ReedMuller2, ReedMuller3, ReedMuller4, ReedMuller5, reed_muller};
    use std::test::Fail;

    fn numbers<C: Code>(code: &C) -> [usize; 4] {
        [
            code.length(),
            code.dimension(),
            code.distance(),
            code.working_length(),
        ]
    }

    #[test]
    fn each_reed_muller_code_is_made_with_its_numbers(rt: HostRuntime) -> Result<(), Fail> {
        assert_eq!(rt; numbers(&reed_muller::<ReedMuller1>()?), [2, 2, 1, 5]);
        assert_eq!(rt; numbers(&reed_muller::<ReedMuller2>()?), [4, 3, 2, 13]);
        assert_eq!(rt; numbers(&reed_muller::<ReedMuller3>()?), [8, 4, 4, 29]);
        assert_eq!(rt; numbers(&reed_muller::<ReedMuller4>()?), [16, 5, 8, 61]);
        assert_eq!(rt; numbers(&reed_muller::<ReedMuller5>()?), [32, 6, 16, 125]);
        Ok(())
    }
}
