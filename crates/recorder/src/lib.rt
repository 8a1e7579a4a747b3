// A slot device whose trace shows the last events, for tests of the order of writes.
#![tactic(auto)]

mod device;
mod trace;

pub use device::Recorder;
