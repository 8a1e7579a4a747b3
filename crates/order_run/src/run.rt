// An order file, run on a board over any device.
ghost use Rattle.std.specs.Prelude.{◌≡◌, None, string_bytes};
ghost use Rattle.rules.specs.Devices.{SameLoans};
ghost use Rattle.order_run.specs.Running.{RanOn};
ghost use Rattle.order_run.specs.Calling.{text_of, Fresh};

use crate::caller::{OrderCaller, Stage};
use board::serve;
use order_reader::Reader;
use rules::SlotDevice;
use std::alloc::{AllocError, Global};

fn caller_of<'a>(heap: Global, input: &'a [u8]) -> OrderCaller<'a>
    ensures { Fresh input.now result }
{
    OrderCaller {
        reader: Reader::new(input),
        stage: Stage::Reading,
        ticket: None,
        head: None,
        text: String::new(heap),
    }
}

// The text, unless memory failed.
fn text_of(caller: OrderCaller) -> Result<String, AllocError>
    requires { caller.ticket ≡ None }
    ensures { result ≡ text_of caller.entry.stage caller.entry.text }
{
    let OrderCaller {
        reader: _,
        stage,
        ticket: _,
        head: _,
        text,
    } = caller;
    match stage {
        Stage::Ended => Ok(text),
        Stage::Reading | Stage::Failed => Err(AllocError),
    }
}

// Opens a board over the device, runs the file's orders on it, and gives the lines that tell the answers.
pub fn run_orders<D: SlotDevice>(
    heap: Global,
    device: &mut D,
    number: u16,
    input: &[u8],
) -> Result<String, AllocError>
    ensures ran { RanOn D.Kind.Kind.meaning D.SlotDevice number input.now string_bytes result device.old device.new }
    ensures same { SameLoans D.SlotDevice device.old device.new }
{
    let mut caller = caller_of(heap, input);
    serve(device, number, &mut caller);
    text_of(caller)
}
