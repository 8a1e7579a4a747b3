// A ticket is what an add gives: it must be given back, by a complete or by a withdraw.
ghost use Rattle.std.specs.Prelude.{◌≡◌, true, false};

use job::Named;

// Only a board makes one, and it cannot be copied.
pub struct Ticket {
    named: Named,
    // Kept: a rule of this project: the prover refuses a ticket that falls, by a fact of that ticket; a ghost field says the same of every ticket.
    // Set when a board takes the ticket back, and told by no contract.
    given_back: bool,
}

// Only a board can show what this requires, and that is the point: whoever else lets a ticket fall is refused.
impl Drop for Ticket {
    fn drop(self)
        requires { self.given_back ≡ true }
    {
        let Ticket {
            named: _,
            given_back: _,
        } = self;
    }
}

impl Ticket {
    pub(crate) fn of(named: Named) -> Ticket
        ensures named { result.named ≡ named }
        ensures unspent { result.given_back ≡ false }
    {
        Ticket {
            named,
            given_back: false,
        }
    }

    pub fn named(&self) -> Named
        ensures { result ≡ self.now.named }
    {
        self.named
    }

    // A board takes its ticket back.
    pub(crate) fn spend(mut self) {
        self.given_back = true;
    }
}
