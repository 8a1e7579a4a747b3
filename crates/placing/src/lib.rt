// Where a new rule may go: its span, the reach of each slot, and the chain of slots that makes room for it.
#![tactic(auto)]

mod chain;
mod clash;
mod jumping;
mod reading;
mod scanning;
mod slot_tests;
mod span;
mod standing;
mod survey;

pub use chain::Chain;
pub use jumping::find_chain;
pub use reading::{slot_at, usable_slots};
pub use scanning::{first_passing, past_last_passing};
pub use slot_tests::{has_number, is_empty};
pub use span::{is_tied, span as span_of};
pub use standing::standing_of;
