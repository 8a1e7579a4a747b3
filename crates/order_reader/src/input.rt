// An order file as a program's input. Only so much of it is read as shows whether it is too long.
ghost use Rattle.std.specs.Prelude.{◌≡◌, IfSome, IfOk, take};

use std::alloc::Global;
use std::io;
use std::io::Read;

// The longest order file, in bytes.
pub const LONGEST: usize = 32_768;

// All of the input; of a longer one than the longest order file one byte more than that.
pub fn read_input<R: Read + Drop>(heap: Global, source: R) -> io::Result<Vec<u8>>
    ensures { IfOk result (λ bytes. IfSome (R.remaining source) (λ given. bytes.items ≡ take 32769 given)) }
{
    let mut bytes = Vec::new(heap);
    source.take(LONGEST as u64 + 1).read_to_end(&mut bytes)?;
    Ok(bytes)
}
