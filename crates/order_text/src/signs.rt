// Words in signs that people read: a dial word place by place, or any word in hexadecimal.
ghost use Rattle.std.specs.Prelude.{◌≡◌, ◌<◌, IfOk, string_bytes};
ghost use Rattle.kinds.specs.DialRules.{places};
ghost use Rattle.order_text.specs.Signs.{sign, digit, signs_of, digits_of};

use kinds::Places;
use kinds::code::{ANY_DIGIT, DIGIT_BUT_ZERO, END, HASH, REST, STAR};
use std::alloc::{AllocError, Global};

// The places of a dial pattern or subject up to its end.
pub fn dial_signs(heap: Global, word: u64) -> Result<String, AllocError>
    ensures { IfOk result (λ text. string_bytes text ≡ signs_of (places 16 word)) }
{
    let mut text = String::new(heap);
    for code in Places::of(word) {
        if code == END {
            break;
        }
        text.push(sign(code))?;
    }
    Ok(text)
}

// All sixteen places of a word as hexadecimal digits.
pub fn hexadecimal(heap: Global, word: u64) -> Result<String, AllocError>
    ensures { IfOk result (λ text. string_bytes text ≡ digits_of (places 16 word)) }
{
    let mut text = String::new(heap);
    for code in Places::of(word) {
        text.push(digit(code))?;
    }
    Ok(text)
}

fn sign(code: u64) -> char
    requires { code < 16 }
    ensures value { result ≡ sign code }
    ensures ascii { result < 128 }
{
    match code {
        STAR => '*',
        HASH => '#',
        ANY_DIGIT => 'X',
        DIGIT_BUT_ZERO => 'Z',
        REST => '!',
        END => '.',
        _ => (b'0' + code as u8) as char,
    }
}

// Kept: char::from_digit would be no plainer: it gives small letters, and an Option.
fn digit(code: u64) -> char
    requires { code < 16 }
    ensures value { result ≡ digit code }
    ensures ascii { result < 128 }
{
    if code < 10 {
        (b'0' + code as u8) as char
    } else {
        (b'A' + (code - 10) as u8) as char
    }
}
