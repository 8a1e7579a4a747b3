// The open add of a board. It knows nothing of devices.
#![tactic(auto)]

mod job;
mod named;

pub use job::{Job, JobEvent, Phase, Request};
pub use named::Named;
