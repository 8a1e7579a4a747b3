// Opening a board and calling it, from C.
ghost use Rattle.record_bank.specs.Records.{record_changed};
ghost use Rattle.chip_image.specs.Chip.{chip_changed};
ghost use Rattle.c_interface.specs.Crossing.{call_of, dial_fixed, packet_fixed, dial_board, packet_board, Tells, Obeys, Opens, RefusedKeeps};

use crate::forms::{AnswerRecord, CallRecord};
use crate::taking::{call_board, open_board};
use chip_image::ChipImage;
use job::Job;
use record_bank::RecordBank;
use rules::Rule;

// Kept: the C interface has no generic function, so each device has its own open and call, over the generic ones of `taking`.

#[unsafe(no_mangle)]
pub extern "C" fn exchange_dial_open(records: &mut [Rule], job: &mut Job)
    ensures { Opens dial_fixed record_changed (dial_board records.old job.old) (dial_board records.new job.new) }
{
    let mut bank = RecordBank::over(records);
    open_board(&mut bank, job);
}

#[unsafe(no_mangle)]
pub extern "C" fn exchange_dial_call(
    records: &mut [Rule],
    board: u16,
    job: &mut Job,
    call: &CallRecord,
) -> AnswerRecord
    ensures tells { Tells (dial_fixed board) record_changed (call_of call.now) result (dial_board records.old job.old) (dial_board records.new job.new) }
    ensures kept { RefusedKeeps result job.old job.new }
    ensures law { Obeys (dial_fixed board) record_changed (call_of call.now) result (dial_board records.old job.old) (dial_board records.new job.new) }
{
    let mut bank = RecordBank::over(records);
    call_board(&mut bank, board, job, *call)
}

#[unsafe(no_mangle)]
pub extern "C" fn exchange_packet_open(words: &mut [u64], job: &mut Job)
    ensures { Opens packet_fixed chip_changed (packet_board words.old job.old) (packet_board words.new job.new) }
{
    let mut chip = ChipImage::over(words);
    open_board(&mut chip, job);
}

#[unsafe(no_mangle)]
pub extern "C" fn exchange_packet_call(
    words: &mut [u64],
    board: u16,
    job: &mut Job,
    call: &CallRecord,
) -> AnswerRecord
    ensures tells { Tells (packet_fixed board) chip_changed (call_of call.now) result (packet_board words.old job.old) (packet_board words.new job.new) }
    ensures kept { RefusedKeeps result job.old job.new }
    ensures law { Obeys (packet_fixed board) chip_changed (call_of call.now) result (packet_board words.old job.old) (packet_board words.new job.new) }
{
    let mut chip = ChipImage::over(words);
    call_board(&mut chip, board, job, *call)
}
