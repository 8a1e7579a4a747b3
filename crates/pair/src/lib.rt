// A pair of slot devices of one kind, which is a slot device itself.
#![tactic(auto)]

mod devices;
mod half;
mod lent;

pub use devices::Pair;
pub use lent::{erase_pair, write_pair};
