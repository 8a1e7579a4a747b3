// The record bank, a slot device over records that the caller lends.
#![tactic(auto)]

mod bank;

pub use bank::RecordBank;
