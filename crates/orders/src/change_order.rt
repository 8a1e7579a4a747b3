// An order to give a rule another action.
#![tactic(auto, using(crate::proofs::Numbers::four_bytes))]

ghost use Rattle.std.specs.Prelude.{◌≡◌};
ghost use Rattle.orders.specs.Layout.{number_in, other_action_in};

use crate::part::Part;

#[derive(Clone, Copy)]
pub struct ChangeOrder<'a>(pub Part<'a, 9>);

impl ChangeOrder<'_> {
    pub fn number(&self) -> u16
        ensures { result ≡ number_in self.now.0.bytes.now }
    {
        self.0.number()
    }

    pub fn action(&self) -> u32
        ensures { result ≡ other_action_in self.now.0.bytes.now }
    {
        u32::from_be_bytes(self.0.field(5))
    }
}
