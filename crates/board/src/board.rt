// A board over one slot device.
ghost use Rattle.std.specs.Prelude.{◌≡◌};
ghost use Rattle.rules.specs.Devices.{SameLoans};
ghost use Rattle.shifting.specs.Machine.{add, step, complete, withdraw, drop_rule, change_action, look_up};
ghost use Rattle.turns.specs.Shown.{ticket_of, counting, doing, finding};
ghost use Rattle.board.specs.Led.{Opened, Obeys, Same, ticketed, spent, HandedBack};

use crate::ticket::Ticket;
use job::Job;
use rules::{Refusal, Rule, SlotDevice};
use turns::{
    change_rule, clear, complete_add, drop_rule, look_up_rule, open_add, step_add, withdraw_add,
};

// When the board is given up the device is its owner's again, as the calls left it.
#[derive(Drop)]
pub struct Board<'a, D> {
    device: &'a mut D,
    number: u16,
    job: Job,
}

// A ticket that was refused, and why.
pub struct Returned {
    pub refusal: Refusal,
    pub ticket: Ticket,
}

// A ticket that was not refused is given back.
fn settled(counted: Result<u16, Refusal>, ticket: Ticket) -> Result<u16, Returned>
    ensures answer { spent result ≡ counting counted }
    ensures back { HandedBack ticket result }
{
    match counted {
        Ok(count) => {
            ticket.spend();
            Ok(count)
        },
        Err(refusal) => Err(Returned { refusal, ticket }),
    }
}

impl<'a, D: SlotDevice> Board<'a, D> {
    pub fn open(device: &'a mut D, number: u16) -> Board<'a, D>
        ensures law { Opened D.Kind.Kind.meaning D.SlotDevice number device.old result }
        ensures number { result.number ≡ number }
        ensures device { result.device.ghost_name ≡ device.entry.ghost_name }
        ensures lenders { SameLoans D.SlotDevice device.old result.device.now }
    {
        clear(device);
        Board {
            device,
            number,
            job: Job::NONE,
        }
    }

    // Opens a ticket; writes nothing.
    pub fn add(&mut self, new: Rule) -> Result<Ticket, Refusal>
        ensures law { Obeys D.Kind.Kind.meaning D.SlotDevice (add new) (ticketed result) self.old self.new }
        ensures same { Same D.SlotDevice self.old self.new }
    {
        let named = open_add(self.device, self.number, &mut self.job, new)?;
        Ok(Ticket::of(named))
    }

    // Makes one write; answers the writes left.
    pub fn step(&mut self, ticket: &Ticket) -> Result<u16, Refusal>
        ensures law { Obeys D.Kind.Kind.meaning D.SlotDevice (step (ticket_of ticket.now.named)) (counting result) self.old self.new }
        ensures same { Same D.SlotDevice self.old self.new }
    {
        step_add(self.device, self.number, &mut self.job, ticket.named())
    }

    // Makes the writes left and takes the ticket; answers the announced count.
    pub fn complete(&mut self, ticket: Ticket) -> Result<u16, Returned>
        ensures law { Obeys D.Kind.Kind.meaning D.SlotDevice (complete (ticket_of ticket.named)) (spent result) self.old self.new }
        ensures same { Same D.SlotDevice self.old self.new }
        ensures back { HandedBack ticket result }
    {
        let counted = complete_add(self.device, self.number, &mut self.job, ticket.named());
        settled(counted, ticket)
    }

    // Takes the ticket back; answers 1 when the new rule is in force, otherwise 0.
    pub fn withdraw(&mut self, ticket: Ticket) -> Result<u16, Returned>
        ensures law { Obeys D.Kind.Kind.meaning D.SlotDevice (withdraw (ticket_of ticket.named)) (spent result) self.old self.new }
        ensures same { Same D.SlotDevice self.old self.new }
        ensures back { HandedBack ticket result }
    {
        let counted = withdraw_add(self.device, self.number, &mut self.job, ticket.named());
        settled(counted, ticket)
    }

    // Erases the rule's slot.
    pub fn drop(&mut self, rule: u16) -> Result<(), Refusal>
        ensures law { Obeys D.Kind.Kind.meaning D.SlotDevice (drop_rule rule) (doing result) self.old self.new }
        ensures same { Same D.SlotDevice self.old self.new }
    {
        drop_rule(self.device, self.number, &self.job, rule)
    }

    // Rewrites the rule in its slot with that action.
    pub fn change(&mut self, rule: u16, action: u32) -> Result<(), Refusal>
        ensures law { Obeys D.Kind.Kind.meaning D.SlotDevice (change_action rule action) (doing result) self.old self.new }
        ensures same { Same D.SlotDevice self.old self.new }
    {
        change_rule(self.device, self.number, &self.job, rule, action)
    }

    // Number and action of the rule that wins the subject, or none.
    pub fn look_up(&self, subject: u64) -> Result<Option<(u16, u32)>, Refusal>
        ensures law { Obeys D.Kind.Kind.meaning D.SlotDevice (look_up subject) (finding result) self.now self.now }
    {
        look_up_rule(self.device, self.number, &self.job, subject)
    }
}
