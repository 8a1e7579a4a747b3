// The board: rules are added, dropped, changed and looked up on a slot device while guests talk.
#![tactic(auto)]

mod board;
mod caller;
mod calls;
mod serving;
mod ticket;

pub use board::{Board, Returned};
pub use caller::Caller;
pub use calls::{Answer, Call};
pub use job::Named;
pub use serving::serve;
pub use ticket::Ticket;
