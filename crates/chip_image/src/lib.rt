// The chip image, a slot device over words that the caller lends.
#![tactic(auto)]

mod chip;
mod layout;

pub use chip::ChipImage;
