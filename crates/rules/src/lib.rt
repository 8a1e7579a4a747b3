// The words that every part of the exchange shares.
#![tactic(auto)]

mod device;
mod event;
mod kind;
mod lent;
mod refusal;
mod rule;
mod words;

pub use device::{SlotDevice, slot_matches};
pub use event::Event;
pub use kind::Kind;
pub use refusal::Refusal;
pub use rule::Rule;
pub use words::Words;
