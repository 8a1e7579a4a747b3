// Calls and answers as values, with real tickets inside.
ghost use Rattle.std.specs.Prelude.{◌≡◌, None};
ghost use Rattle.turns.specs.Shown.{doing, finding};
ghost use Rattle.board.specs.Led.{ticketed, spent};
ghost use Rattle.board.specs.Calls.{answer_of, returned, refused_ticket};

use crate::board::Returned;
use crate::ticket::Ticket;
use rules::{Refusal, Rule};

pub enum Call {
    Add(Rule),
    Step(Ticket),
    Complete(Ticket),
    Withdraw(Ticket),
    DropRule(u16),
    ChangeAction(u16, u32),
    LookUp(u64),
}

pub enum Answer {
    Opened(Ticket),
    // the writes left, and the ticket again
    Stepped(u16, Ticket),
    // a complete or a withdraw that has taken its ticket
    Closed(u16),
    Done,
    Found(Option<(u16, u32)>),
    Refused(Refusal),
    // a refused ticket is handed back
    HandedBack(Refusal, Ticket),
}

impl From<Result<Ticket, Refusal>> for Answer {
    ghost from_gives = { λ res answer. (answer_of answer ≡ ticketed res) × (returned answer ≡ None) };

    fn from(res: Result<Ticket, Refusal>) -> Answer {
        res.map_or_else(Answer::Refused, Answer::Opened)
    }
}

impl From<Result<u16, Returned>> for Answer {
    ghost from_gives = { λ res answer. (answer_of answer ≡ spent res) × (returned answer ≡ refused_ticket res) };

    fn from(res: Result<u16, Returned>) -> Answer {
        res.map_or_else(
            |Returned { refusal, ticket }| Answer::HandedBack(refusal, ticket),
            Answer::Closed,
        )
    }
}

impl From<Result<(), Refusal>> for Answer {
    ghost from_gives = { λ res answer. (answer_of answer ≡ doing res) × (returned answer ≡ None) };

    fn from(res: Result<(), Refusal>) -> Answer {
        res.map_or_else(Answer::Refused, |()| Answer::Done)
    }
}

impl From<Result<Option<(u16, u32)>, Refusal>> for Answer {
    ghost from_gives = { λ res answer. (answer_of answer ≡ finding res) × (returned answer ≡ None) };

    fn from(res: Result<Option<(u16, u32)>, Refusal>) -> Answer {
        res.map_or_else(Answer::Refused, Answer::Found)
    }
}
