// The seven calls of a board, each as one turn of the machine over any slot device. Tickets are here by what they name.
// Kept: a struct of device, number and job would be no plainer: it would hold two loans, and each contract would say that both stay the same.
// Kept: a name for what the clauses `kept` say would be no plainer: std's word with one equation says it.
#![tactic(auto)]

mod adding;
mod altering;
mod numbered;
mod opening;
mod writing;

pub use adding::open_add;
pub use altering::{change_rule, drop_rule, look_up_rule};
pub use opening::clear;
pub use writing::{complete_add, step_add, withdraw_add};
