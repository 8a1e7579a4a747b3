// An order file, run on a dial board over records.
#![tactic(auto)]

ghost use Rattle.std.specs.Prelude.{◌≡◌, IfOk, string_bytes};
ghost use Rattle.record_bank.specs.Records.{bank_slots, record_changed};
ghost use Rattle.order_run.specs.Running.{Ran};
ghost use Rattle.dial_run.specs.Exchange.{dial_board, lines_on_six, printed};

use order_reader::LONGEST;
use order_run::run_orders;
use record_bank::RecordBank;
use rules::Rule;
use std::alloc::{AllocError, Global};

#[cfg(test)]
mod tests;

// No line shows the board's number.
const BOARD: u16 = 1;

// Slots of the exchange's own board.
const SLOTS: usize = 6;

// The caller's records are the slots; the lines tell the answers.
pub fn run_dial_orders(
    heap: Global,
    records: &mut [Rule],
    input: &[u8],
) -> Result<String, AllocError>
    ensures ran { Ran dial_board record_changed (bank_slots records.old) 0 records.old input.now string_bytes result (bank_slots records.new) 0 records.new }
{
    let mut bank = RecordBank::over(records);
    run_orders(heap, &mut bank, BOARD, input)
}

// The lines of a run on the exchange's own board.
pub fn run_on_six_slots(heap: Global, input: &[u8]) -> Result<String, AllocError>
    ensures { IfOk result (λ lines. string_bytes lines ≡ lines_on_six input.now) }
{
    let mut records = [Rule::ZERO; SLOTS];
    run_dial_orders(heap, &mut records, input)
}

// All that the exchange's program prints for its input.
pub fn printed(heap: Global, input: &[u8]) -> Result<String, AllocError>
    ensures { IfOk result (λ text. string_bytes text ≡ printed input.now) }
{
    if input.len() > LONGEST {
        return format!(in heap; "long\n");
    }
    run_on_six_slots(heap, input)
}
