// The two words of a rule: what its kind reads, and nothing else of the rule.

#[derive(Clone, Copy, PartialEq, Eq, Debug)]
pub struct Words {
    pub a: u64,
    pub b: u64,
}
