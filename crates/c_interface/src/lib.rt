// The boards for C: the caller lends all memory, and no function keeps a pointer.
#![tactic(auto)]

mod calls;
mod forms;
mod running;
mod taking;

pub use forms::{AnswerRecord, CallRecord};
