// The input of the program, which has a limit.
ghost use Rattle.std.specs.Prelude.{◌≡◌, ◌<◌, ◌≤◌, IfSome, IfOk, MatchOption, if◌then◌else◌, Some, None, length, vec_len, nat_lt};

use order_reader::{LONGEST, read_input};
use std::alloc::Global;
use std::io;
use std::io::Read;

// All of the input, or none where it is longer than the limit.
pub fn whole_input<R: Read + Drop>(heap: Global, source: R) -> io::Result<Option<Vec<u8>>>
    ensures limit { IfOk result (λ input. IfSome input (λ bytes. vec_len bytes ≤ 32768)) }
    ensures whole { IfOk result (λ input. IfSome (R.remaining source) (λ given. MatchOption input (32768 < length given) (λ bytes. bytes.items ≡ given))) }
{
    Ok(within_limit(read_input(heap, source)?))
}

fn within_limit(bytes: Vec<u8>) -> Option<Vec<u8>>
    ensures { result ≡ (if nat_lt 32768 (vec_len bytes) then None else Some bytes) }
{
    if bytes.len() > LONGEST {
        return None;
    }
    Some(bytes)
}
