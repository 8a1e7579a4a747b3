// An order to drop a rule.
ghost use Rattle.std.specs.Prelude.{◌≡◌};
ghost use Rattle.orders.specs.Layout.{number_in};

use crate::part::Part;

#[derive(Clone, Copy)]
pub struct DropOrder<'a>(pub Part<'a, 5>);

impl DropOrder<'_> {
    pub fn number(&self) -> u16
        ensures { result ≡ number_in self.now.0.bytes.now }
    {
        self.0.number()
    }
}
