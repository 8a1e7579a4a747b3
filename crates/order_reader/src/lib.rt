// Order files, read along the caller's bytes without a copy.
#![tactic(auto)]

mod front;
mod input;
mod listing;
mod reader;

pub use input::{LONGEST, read_input};
pub use listing::{Listing, read_orders};
pub use reader::Reader;

#[cfg(test)]
mod tests;
