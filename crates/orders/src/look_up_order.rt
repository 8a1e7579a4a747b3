// An order to look a subject up.
#![tactic(auto, using(crate::proofs::Numbers::eight_bytes))]

ghost use Rattle.std.specs.Prelude.{◌≡◌};
ghost use Rattle.orders.specs.Layout.{subject_in};

use crate::part::Part;

#[derive(Clone, Copy)]
pub struct LookUpOrder<'a>(pub Part<'a, 11>);

impl LookUpOrder<'_> {
    pub fn subject(&self) -> u64
        ensures { result ≡ subject_in self.now.0.bytes.now }
    {
        u64::from_be_bytes(self.0.field(3))
    }
}
