// Running an order file, from C.
ghost use Rattle.std.specs.Prelude.{◌≡◌, length, string_bytes};
ghost use Rattle.rules.specs.Devices.{SameLoans};
ghost use Rattle.record_bank.specs.Records.{record_changed};
ghost use Rattle.chip_image.specs.Chip.{chip_changed};
ghost use Rattle.c_interface.specs.declared.running.Failure.TheVariants.{Memory};
ghost use Rattle.c_interface.specs.Crossing.{dial_fixed, packet_fixed};
ghost use Rattle.c_interface.specs.Running.{room, run_board, fitting, fitted, told_length, code, answered, written_over, dial_loans, packet_loans, Runs, RunsOn};

use chip_image::ChipImage;
use order_reader::LONGEST;
use order_run::run_orders;
use record_bank::RecordBank;
use rules::{Rule, SlotDevice};
use std::alloc::{AllocError, Global};

// No line shows the board's number.
// Kept: one constant with the exchange's own board would be no plainer: each contract names its own.
const BOARD: u16 = 1;

// Why a run gives no lines.
#[derive(Clone, Copy)]
enum Failure {
    // Too many bytes of orders.
    Long,
    // Too short a buffer.
    Short,
    Memory,
}

impl From<AllocError> for Failure {
    ghost from_gives = { λ _ failure. failure ≡ Memory };

    fn from(_: AllocError) -> Failure {
        Failure::Memory
    }
}

impl Failure {
    // Kept: the C interface has a failure as a number below 0, in the place of the lines' length.
    fn code(self) -> i64
        ensures { result ≡ code self }
    {
        match self {
            Failure::Long => -1,
            Failure::Short => -2,
            Failure::Memory => -3,
        }
    }
}

// Bytes that hold every line of so many bytes of orders.
#[unsafe(no_mangle)]
pub extern "C" fn exchange_room(orders_length: usize) -> usize
    ensures { result ≡ room orders_length }
{
    22usize.saturating_mul(orders_length / 3 + 1)
}

// Copies the bytes to the front of the buffer, if they fit; answers how many they are.
fn fill(lines: &mut [u8], bytes: &[u8]) -> Result<i64, Failure>
    ensures answer { answered result ≡ told_length (fitting (length lines.old) bytes.now) }
    ensures lines { lines.new ≡ written_over (fitting (length lines.old) bytes.now) lines.old }
{
    if lines.len() < bytes.len() {
        return Err(Failure::Memory);
    }
    lines[..bytes.len()].copy_from_slice(bytes);
    Ok(bytes.len() as i64)
}

fn fill_with(lines: &mut [u8], text: Result<String, AllocError>) -> Result<i64, Failure>
    ensures answer { answered result ≡ told_length (fitted (length lines.old) string_bytes text) }
    ensures lines { lines.new ≡ written_over (fitted (length lines.old) string_bytes text) lines.old }
{
    let text = text?;
    fill(lines, text.as_bytes())
}

fn run<D: SlotDevice>(
    heap: Global,
    device: &mut D,
    orders: &[u8],
    lines: &mut [u8],
) -> Result<i64, Failure>
    ensures runs { RunsOn D.Kind.Kind.meaning D.SlotDevice orders.now (answered result) device.old lines.old device.new lines.new }
    ensures same { SameLoans D.SlotDevice device.old device.new }
{
    if orders.len() > LONGEST {
        return Err(Failure::Long);
    }
    if lines.len() < exchange_room(orders.len()) {
        return Err(Failure::Short);
    }
    let text = run_orders(heap, device, BOARD, orders);
    fill_with(lines, text)
}

// Kept: the C interface has no generic function, so each device has its own run, over the generic one.
#[unsafe(no_mangle)]
pub extern "C" fn exchange_dial_run(
    heap: Global,
    records: &mut [Rule],
    orders: &[u8],
    lines: &mut [u8],
) -> i64
    ensures { Runs (dial_fixed run_board) record_changed orders.now result (dial_loans records.old lines.old) (dial_loans records.new lines.new) }
{
    let mut bank = RecordBank::over(records);
    run(heap, &mut bank, orders, lines).unwrap_or_else(Failure::code)
}

#[unsafe(no_mangle)]
pub extern "C" fn exchange_packet_run(
    heap: Global,
    words: &mut [u64],
    orders: &[u8],
    lines: &mut [u8],
) -> i64
    ensures { Runs (packet_fixed run_board) chip_changed orders.now result (packet_loans words.old lines.old) (packet_loans words.new lines.new) }
{
    let mut chip = ChipImage::over(words);
    run(heap, &mut chip, orders, lines).unwrap_or_else(Failure::code)
}
