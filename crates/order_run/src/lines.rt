// The lines of a run.
ghost use Rattle.std.specs.Prelude.{◌≡◌, ◌<◌, ◌++◌, string_bytes, OnOk};
ghost use Rattle.board.specs.Calls.{answer_of};
ghost use Rattle.order_run.specs.Lines.{Tells, line, number_told, value_told};

use crate::caller::Head;
use board::Answer;
use rules::Refusal;
use std::alloc::AllocError;

// What a line tells of an answer: a value, where there is one, or why the call is refused.
pub(crate) type Reply = Result<Option<u32>, Refusal>;

// Of a rule that was found its action is told.
pub(crate) fn reply_to(answer: &Answer) -> Reply
    ensures { Tells (answer_of answer.now) (number_told result) (value_told result) }
{
    match answer {
        Answer::Opened(ticket) => Ok(Some(u32::from(ticket.named().length))),
        Answer::Stepped(count, _) | Answer::Closed(count) => Ok(Some(u32::from(*count))),
        Answer::Done => Ok(Some(0)),
        Answer::Found(found) => Ok(found.map(|(_, action)| action)),
        Answer::Refused(refusal) | Answer::HandedBack(refusal, _) => Err(*refusal),
    }
}

// The refusal's number, or 0, and the value, which is 0 of a refusal.
// Kept: tried a line for each case, with a 0 in its text; the proof did not close: the digits of a literal do not compute.
fn figures(reply: Reply) -> (u8, Option<u32>)
    ensures refusal { result.0 ≡ number_told reply }
    ensures value { result.1 ≡ value_told reply }
{
    match reply {
        Ok(value) => (0, value),
        Err(refusal) => (refusal.number(), Some(0)),
    }
}

// Letter, place, refusal number or 0, and value, one space apart.
pub(crate) fn write_line(text: &mut String, head: Head, reply: Reply) -> Result<(), AllocError>
    requires { head.letter < 128 }
    ensures { OnOk result (string_bytes text.new ≡ string_bytes text.old ++ line head.letter head.place (number_told reply) (value_told reply)) }
{
    let letter = head.letter as char;
    let place = head.place;
    let (refusal, value) = figures(reply);
    match value {
        Some(value) => writeln!(text, "{letter} {place} {refusal} {value}"),
        None => writeln!(text, "{letter} {place} {refusal} -"),
    }
}
