// What a ticket names: the board, the number of the rule, and the length of its chain.
#[derive(Clone, Copy, PartialEq, Eq, Debug)]
#[repr(C)]
pub struct Named {
    pub board: u16,
    pub rule: u16,
    pub length: u16,
}
