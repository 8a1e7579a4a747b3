// An order to add a rule.
#![tactic(auto, using(crate::proofs::Numbers::two_bytes, crate::proofs::Numbers::four_bytes, crate::proofs::Numbers::eight_bytes))]

ghost use Rattle.std.specs.Prelude.{◌≡◌};
ghost use Rattle.orders.specs.Layout.{number_in, priority_in, new_action_in, word_a_in, word_b_in};

use crate::part::Part;

#[derive(Clone, Copy)]
pub struct AddOrder<'a>(pub Part<'a, 27>);

impl AddOrder<'_> {
    pub fn number(&self) -> u16
        ensures { result ≡ number_in self.now.0.bytes.now }
    {
        self.0.number()
    }

    pub fn priority(&self) -> u16
        ensures { result ≡ priority_in self.now.0.bytes.now }
    {
        u16::from_be_bytes(self.0.field(5))
    }

    pub fn action(&self) -> u32
        ensures { result ≡ new_action_in self.now.0.bytes.now }
    {
        u32::from_be_bytes(self.0.field(7))
    }

    pub fn word_a(&self) -> u64
        ensures { result ≡ word_a_in self.now.0.bytes.now }
    {
        u64::from_be_bytes(self.0.field(11))
    }

    pub fn word_b(&self) -> u64
        ensures { result ≡ word_b_in self.now.0.bytes.now }
    {
        u64::from_be_bytes(self.0.field(19))
    }
}
