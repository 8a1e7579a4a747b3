// One line for each order, and one for how the file ended.
ghost use Rattle.std.specs.Prelude.{◌≡◌, IfOk, string_bytes};
ghost use Rattle.order_text.specs.Lines.{words_text, subject_text, add_line, order_line, ending_line};

use crate::signs::{dial_signs, hexadecimal};
use kinds::Dial;
use orders::{AddOrder, Order};
use rules::{Kind, Refusal, Words};
use std::alloc::{AllocError, Global};

// An order's letter, its place and its fields.
pub fn order_line(heap: Global, order: &Order) -> Result<String, AllocError>
    ensures { IfOk result (λ line. string_bytes line ≡ order_line order.now) }
{
    let place = order.place();
    match order {
        Order::Add(add) => add_line(heap, place, add),
        Order::Drop(drop) => {
            let number = drop.number();
            format!(in heap; "D {place} number {number}")
        }
        Order::Change(change) => {
            let number = change.number();
            let action = change.action();
            format!(in heap; "C {place} number {number} action {action}")
        }
        Order::LookUp(look_up) => {
            let subject = subject_text(heap, look_up.subject())?;
            format!(in heap; "L {place} {subject}")
        }
        Order::Step(_) => format!(in heap; "S {place}"),
        Order::Complete(_) => format!(in heap; "E {place}"),
        Order::Withdraw(_) => format!(in heap; "W {place}"),
    }
}

fn add_line(heap: Global, place: usize, add: &AddOrder) -> Result<String, AllocError>
    ensures { IfOk result (λ line. string_bytes line ≡ add_line place add.now.0.bytes.now) }
{
    let number = add.number();
    let priority = add.priority();
    let action = add.action();
    let words = Words {
        a: add.word_a(),
        b: add.word_b(),
    };
    let words = words_text(heap, words)?;
    format!(in heap; "A {place} number {number} priority {priority} action {action} {words}")
}

// The pattern of a dial rule, or its words where they are not one.
fn words_text(heap: Global, words: Words) -> Result<String, AllocError>
    ensures { IfOk result (λ text. string_bytes text ≡ words_text words.a words.b) }
{
    if Dial::well_formed(words) {
        let signs = dial_signs(heap, words.a)?;
        format!(in heap; "pattern \"{signs}\" well formed")
    } else {
        let a = hexadecimal(heap, words.a)?;
        let b = hexadecimal(heap, words.b)?;
        format!(in heap; "words {a} {b} not well formed")
    }
}

fn subject_text(heap: Global, subject: u64) -> Result<String, AllocError>
    ensures { IfOk result (λ text. string_bytes text ≡ subject_text subject) }
{
    if Dial::well_formed_subject(subject) {
        let signs = dial_signs(heap, subject)?;
        format!(in heap; "subject \"{signs}\" well formed")
    } else {
        let digits = hexadecimal(heap, subject)?;
        format!(in heap; "subject {digits} not well formed")
    }
}

// The end of the file, or the damaged order at the place.
pub fn ending_line(
    heap: Global,
    place: usize,
    ending: Result<(), Refusal>,
) -> Result<String, AllocError>
    ensures { IfOk result (λ line. string_bytes line ≡ ending_line place ending) }
{
    match ending {
        Ok(()) => format!(in heap; "end {place}"),
        Err(refusal) => {
            let number = refusal.number();
            format!(in heap; "? {place} {number} 0")
        }
    }
}
