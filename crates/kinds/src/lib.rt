// The two kinds of rule: packet rules by value and mask, dial rules by pattern.
#![tactic(auto)]

pub mod code;
mod dial;
mod packet;
mod places;

pub use dial::Dial;
pub use packet::Packet;
pub use places::Places;
