// An order file, run on a board.
#![tactic(auto)]

mod caller;
mod calling;
mod keeping;
mod lines;
mod run;

pub use run::run_orders;
