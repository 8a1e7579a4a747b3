// What stands in a place of a dial word. The codes 0 to 9 are digits.
// Kept: an enum would be no plainer: a digit is its own code, and the tests ask for ranges of codes.
pub const STAR: u64 = 10;

pub const HASH: u64 = 11;

pub const ANY_DIGIT: u64 = 12;

pub const DIGIT_BUT_ZERO: u64 = 13;

pub const REST: u64 = 14;

pub const END: u64 = 15;
