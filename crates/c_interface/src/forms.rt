// Calls and answers as C has them, laid out as c/exchange.h says.
ghost use Rattle.std.specs.Prelude.{◌≡◌};
ghost use Rattle.rules.specs.Refusals.{number};
ghost use Rattle.shifting.specs.Machine.{found};
ghost use Rattle.turns.specs.Shown.{opening, counting, doing, finding};
ghost use Rattle.c_interface.specs.Crossing.{telling, told_by};

use job::Named;
use rules::{Refusal, Rule};

// Its letter is that of an order. What the letter does not use is not looked at.
// Kept: the C interface has a call as a letter and numbers.
#[derive(Clone, Copy)]
#[repr(C)]
pub struct CallRecord {
    pub letter: u8,
    pub ticket: Named,
    pub rule: Rule,
    pub subject: u64,
}

// The refusal's number, or 0. What an answer does not tell is 0.
// Kept: the C interface has an answer as numbers.
#[derive(Clone, Copy)]
#[repr(C)]
pub struct AnswerRecord {
    pub refusal: u32,
    pub value: u32,
    pub number: u16,
    pub ticket: Named,
}

fn telling(refusal: u32, value: u32, number: u16) -> AnswerRecord
    ensures { result ≡ telling refusal value number }
{
    AnswerRecord {
        refusal,
        value,
        number,
        ticket: Named {
            board: 0,
            rule: 0,
            length: 0,
        },
    }
}

impl From<Refusal> for AnswerRecord {
    ghost from_gives = { λ refusal answer. answer ≡ telling (number refusal) 0 0 };

    fn from(refusal: Refusal) -> AnswerRecord {
        telling(u32::from(refusal.number()), 0, 0)
    }
}

// What an add answers.
impl From<Result<Named, Refusal>> for AnswerRecord {
    ghost from_gives = { λ res answer. answer ≡ told_by (opening res) };

    fn from(res: Result<Named, Refusal>) -> AnswerRecord {
        res.map_or_else(
            AnswerRecord::from,
            |ticket| AnswerRecord {
                refusal: 0,
                value: u32::from(ticket.length),
                number: 0,
                ticket,
            },
        )
    }
}

// A step, a complete or a withdraw.
impl From<Result<u16, Refusal>> for AnswerRecord {
    ghost from_gives = { λ res answer. answer ≡ told_by (counting res) };

    fn from(res: Result<u16, Refusal>) -> AnswerRecord {
        res.map_or_else(AnswerRecord::from, |count| telling(0, u32::from(count), 0))
    }
}

// A drop or a change.
impl From<Result<(), Refusal>> for AnswerRecord {
    ghost from_gives = { λ res answer. answer ≡ told_by (doing res) };

    fn from(res: Result<(), Refusal>) -> AnswerRecord {
        res.map_or_else(AnswerRecord::from, |()| telling(0, 0, 0))
    }
}

fn winner(told: Option<(u16, u32)>) -> AnswerRecord
    ensures { result ≡ told_by (found told) }
{
    let (rule, action) = told.unwrap_or((0, 0));
    telling(0, action, rule)
}

// A look-up.
impl From<Result<Option<(u16, u32)>, Refusal>> for AnswerRecord {
    ghost from_gives = { λ res answer. answer ≡ told_by (finding res) };

    fn from(res: Result<Option<(u16, u32)>, Refusal>) -> AnswerRecord {
        res.map_or_else(AnswerRecord::from, winner)
    }
}
