// Boards at work: a caller that promises nothing before it is served, and tests of the order of writes.
#![tactic(auto)]

mod look_ups;

pub use look_ups::{LookUps, serve_look_ups};

#[cfg(test)]
mod tests;
