// The open add of a board, if one is open: which writes it wants, and how many of them are made.
ghost use Rattle.std.specs.Prelude.{◌≡◌, ◌+◌, ◌-◌, ◌<◌, Ok};
ghost use Rattle.job.specs.Jobs.{phase_of, naming, when_named, allowed, moved, next_slot, slot_before, slot_last, half_done, in_force};

use crate::named::Named;
use placing::Chain;
use rules::{Refusal, Rule};

#[derive(Clone, Copy, PartialEq, Eq, Debug)]
pub enum Phase {
    // no ticket is open
    Idle,
    // a ticket is open and writes are left
    Shifting,
    // a ticket is open and no write is left
    Written,
}

// What is asked of a board, as far as its open add decides on it.
#[derive(Clone, Copy, PartialEq, Eq, Debug)]
pub enum Request {
    // an add, a drop or a change
    Alter,
    Step(Named),
    // a complete or a withdraw
    Close(Named),
}

#[derive(Clone, Copy, PartialEq, Eq, Debug)]
pub enum JobEvent {
    // an add of this rule has opened a ticket, and its chain is found
    Opened(Rule),
    // one more write of it is made
    Wrote,
    // its ticket is taken back
    Closed,
}

// Kept: the C interface has the job in the caller's memory, so `busy` is a flag there and no Option (c/exchange.h).
// Nothing but `busy` counts while no add is open. The chain has its places here, so that no add has to find memory.
#[derive(Clone, Copy)]
#[repr(C)]
pub struct Job {
    pub busy: bool,
    pub rule: Rule,
    pub chain: Chain,
    pub made: u16,
}

// Told of the length, below which it stays, so that it fits.
fn one_more(made: u16, length: u16) -> u16
    requires { made < length }
    ensures { result ≡ made + 1 }
{
    made + 1
}

impl Job {
    pub const NONE: Job = Job {
        busy: false,
        rule: Rule::ZERO,
        chain: Chain::NONE,
        made: 0,
    };

    pub fn phase(&self) -> Phase
        ensures { result ≡ phase_of self.now }
    {
        if !self.busy {
            Phase::Idle
        } else if self.made < self.chain.length {
            Phase::Shifting
        } else {
            Phase::Written
        }
    }

    // Whether a ticket names this add: any ticket that does is good.
    fn is_named(&self, board: u16, named: Named) -> bool
        ensures { result ≡ naming board named self.now }
    {
        let open = Named {
            board,
            rule: self.rule.number,
            length: self.chain.length,
        };
        named == open
    }

    // What the phase refuses. A foreign ticket is refused before one that has run out.
    pub fn allows(&self, board: u16, request: Request) -> Result<(), Refusal>
        ensures { result ≡ allowed board (phase_of self.now) request self.now }
    {
        match (self.phase(), request) {
            (Phase::Idle, Request::Alter) => Ok(()),
            (Phase::Idle, Request::Step(_) | Request::Close(_)) => Err(Refusal::Foreign),
            (Phase::Shifting | Phase::Written, Request::Alter) => Err(Refusal::Busy),
            (Phase::Shifting, Request::Step(named)) => self.when_named(board, named),
            (Phase::Shifting, Request::Close(named)) => self.when_named(board, named),
            (Phase::Written, Request::Step(named)) => {
                self.when_named(board, named)?;
                Err(Refusal::RunOut)
            },
            (Phase::Written, Request::Close(named)) => self.when_named(board, named),
        }
    }

    fn when_named(&self, board: u16, named: Named) -> Result<(), Refusal>
        ensures { result ≡ when_named board named self.now (Ok tt) }
    {
        self.is_named(board, named)
            .then_some(())
            .ok_or(Refusal::Foreign)
    }

    pub fn happens(&mut self, event: JobEvent)
        ensures { self.new ≡ moved (phase_of self.old) event self.old }
    {
        match (self.phase(), event) {
            (Phase::Idle, JobEvent::Opened(rule)) => {
                self.busy = true;
                self.rule = rule;
                self.made = 0;
            },
            (Phase::Shifting, JobEvent::Wrote) => self.made = one_more(
                self.made,
                self.chain.length,
            ),
            (Phase::Shifting | Phase::Written, JobEvent::Closed) => self.busy = false,
            // what does not fit its phase changes nothing
            (Phase::Idle, JobEvent::Wrote | JobEvent::Closed)
            | (Phase::Shifting, JobEvent::Opened(_))
            | (Phase::Written, JobEvent::Opened(_) | JobEvent::Wrote) => {},
        }
    }

    // How many writes are left.
    pub fn left(&self) -> u16
        ensures { result ≡ self.now.chain.length - self.now.made }
    {
        self.chain.length.saturating_sub(self.made)
    }

    // The slot that the next write goes to: the last of those left.
    pub fn next_slot(&self) -> u16
        ensures { result ≡ next_slot self.now }
    {
        self.chain.slot(self.left().saturating_sub(1))
    }

    // The chain's slot before that one.
    pub fn slot_before(&self) -> u16
        ensures { result ≡ slot_before self.now }
    {
        self.chain.slot(self.left().saturating_sub(2))
    }

    // The slot last written, if one was.
    pub fn slot_written(&self) -> u16
        ensures { result ≡ slot_last self.now }
    {
        self.chain.slot(self.left())
    }

    pub fn is_half_way(&self) -> bool
        ensures { result ≡ half_done self.now }
    {
        self.made > 0 && self.made < self.chain.length
    }

    // 1 when the new rule is in force, otherwise 0.
    // Kept: a bool would be no plainer: this is the number that a withdraw answers.
    pub fn in_force(&self) -> u16
        ensures { result ≡ in_force self.now }
    {
        u16::from(self.left() == 0)
    }
}
