// Opening a board over any device, and one call on it by its record.
ghost use Rattle.std.specs.Prelude.{◌≡◌};
ghost use Rattle.rules.specs.Devices.{SameLoans};
ghost use Rattle.c_interface.specs.Crossing.{TellsOf, ObeysOf, OpensOf, RefusedKeeps};

use crate::forms::{AnswerRecord, CallRecord};
use job::Job;
use rules::{Refusal, SlotDevice};
use turns::{
    change_rule, clear, complete_add, drop_rule, look_up_rule, open_add, step_add, withdraw_add,
};

pub(crate) fn open_board<D: SlotDevice>(device: &mut D, job: &mut Job)
    ensures opens { OpensOf D.Kind.Kind.meaning D.SlotDevice device.old job.old device.new job.new }
    ensures same { SameLoans D.SlotDevice device.old device.new }
{
    clear(device);
    *job = Job::NONE;
}

// Kept: the C interface names a call by its letter, so the letter is matched.
fn take<D: SlotDevice>(device: &mut D, board: u16, job: &mut Job, call: CallRecord) -> AnswerRecord
    ensures tells { TellsOf D.Kind.Kind.meaning D.SlotDevice board call result device.old job.old device.new job.new }
    ensures kept { RefusedKeeps result job.old job.new }
    ensures same { SameLoans D.SlotDevice device.old device.new }
{
    match call.letter {
        b'A' => open_add(device, board, job, call.rule).into(),
        b'S' => step_add(device, board, job, call.ticket).into(),
        b'E' => complete_add(device, board, job, call.ticket).into(),
        b'W' => withdraw_add(device, board, job, call.ticket).into(),
        b'D' => drop_rule(device, board, job, call.rule.number).into(),
        b'C' => change_rule(device, board, job, call.rule.number, call.rule.action).into(),
        b'L' => look_up_rule(device, board, job, call.subject).into(),
        _ => Refusal::StrangeLetter.into(),
    }
}

// The same with the law on it.
pub(crate) fn call_board<D: SlotDevice>(
    device: &mut D,
    board: u16,
    job: &mut Job,
    call: CallRecord,
) -> AnswerRecord
    ensures tells { TellsOf D.Kind.Kind.meaning D.SlotDevice board call result device.old job.old device.new job.new }
    ensures kept { RefusedKeeps result job.old job.new }
    ensures law { ObeysOf D.Kind.Kind.meaning D.SlotDevice board call result device.old job.old device.new job.new }
    ensures same { SameLoans D.SlotDevice device.old device.new }
{
    take(device, board, job, call)
}
