// Whole files, damaged files, files cut at each place, and an input that comes in parts.
use crate::input::read_input;
use crate::listing::read_orders;
use orders::Order;
use rules::Refusal;
use std::alloc::{AllocError, Global};
use std::io::Read;
use std::process::Abort;
use std::test::Fail;

// Add 9!, complete, add 90, step, look 90 up, complete, look 90 up.
const WORKED: [u8; 85] = [
    0x4b, 0x54, 0x41, 0x00, 0x01, 0x00, 0x0a, 0x00, 0x00, 0x00, 0x64, 0x9e, 0xff, 0xff, 0xff, 0xff,
    0xff, 0xff, 0xff, 0x00, 0x00, 0x00, 0x00, 0x00, 0x00, 0x00, 0x00, 0x4b, 0x54, 0x45, 0x4b, 0x54,
    0x41, 0x00, 0x02, 0x00, 0x14, 0x00, 0x00, 0x00, 0xc8, 0x90, 0xff, 0xff, 0xff, 0xff, 0xff, 0xff,
    0xff, 0x00, 0x00, 0x00, 0x00, 0x00, 0x00, 0x00, 0x00, 0x4b, 0x54, 0x53, 0x4b, 0x54, 0x4c, 0x90,
    0xff, 0xff, 0xff, 0xff, 0xff, 0xff, 0xff, 0x4b, 0x54, 0x45, 0x4b, 0x54, 0x4c, 0x90, 0xff, 0xff,
    0xff, 0xff, 0xff, 0xff, 0xff,
];

fn reads(
    rt: &impl Abort,
    heap: Global,
    bytes: &[u8],
    orders: usize,
    place: usize,
    ending: Result<(), Refusal>,
) -> Result<(), Fail> {
    let listing = read_orders(heap, bytes)?;
    assert_eq!(rt; listing.orders.len(), orders);
    assert_eq!(rt; listing.place, place);
    assert_eq!(rt; listing.ending, ending);
    Ok(())
}

// The order's letter and place, and its fields in hexadecimal.
fn shown(heap: Global, order: &Order) -> Result<String, AllocError> {
    let letter = order.letter() as char;
    let place = order.place();
    match order {
        Order::Add(add) => {
            let number = add.number();
            let priority = add.priority();
            let action = add.action();
            let a = add.word_a();
            let b = add.word_b();
            format!(in heap; "{letter}{place}:{number:x},{priority:x},{action:x},{a:x},{b:x} ")
        }
        Order::Drop(drop) => format!(in heap; "{letter}{place}:{:x} ", drop.number()),
        Order::Change(change) => format!(in heap;
            "{letter}{place}:{:x},{:x} ",
            change.number(),
            change.action()
        ),
        Order::LookUp(look_up) => format!(in heap; "{letter}{place}:{:x} ", look_up.subject()),
        Order::Step(_) | Order::Complete(_) | Order::Withdraw(_) => format!(in heap;
            "{letter}{place} "
        ),
    }
}

fn shown_file(heap: Global, bytes: &[u8]) -> Result<String, AllocError> {
    let listing = read_orders(heap, bytes)?;
    let mut text = String::new(heap);
    for order in listing.orders.iter() {
        text.push_str(shown(heap, order)?.as_str())?;
    }
    Ok(text)
}

#[test]
fn fields(rt: HostRuntime) -> Result<(), Fail> {
    let heap = rt.alloc();
    assert_eq!(rt;
        shown_file(heap, &WORKED)?.as_str(),
        "A0:1,a,64,9effffffffffffff,0 E27 A30:2,14,c8,90ffffffffffffff,0 S57 L60:90ffffffffffffff E71 L74:90ffffffffffffff "
    );
    assert_eq!(rt;
        shown_file(heap, b"KTW\x4b\x54D\x12\x34KTC\x00\x01\xde\xad\xbe\xef")?.as_str(),
        "W0 D3:1234 C8:1,deadbeef "
    );
    Ok(())
}

#[test]
fn short_files(rt: HostRuntime) -> Result<(), Fail> {
    let heap = rt.alloc();
    reads(&rt, heap, b"", 0, 0, Ok(()))?;
    reads(&rt, heap, b"K", 0, 0, Err(Refusal::CutShort))?;
    reads(&rt, heap, b"xy", 0, 0, Err(Refusal::CutShort))?;
    reads(&rt, heap, b"KTA", 0, 0, Err(Refusal::CutShort))?;
    reads(&rt, heap, b"KTZ", 0, 0, Err(Refusal::StrangeLetter))?;
    reads(&rt, heap, b"KUZ", 0, 0, Err(Refusal::Unmarked))?;
    reads(&rt, heap, b"KTSKTEKT", 2, 6, Err(Refusal::CutShort))
}

// Each order whole, and without its last byte.
#[test]
fn cut_bodies(rt: HostRuntime) -> Result<(), Fail> {
    let heap = rt.alloc();
    let orders = [
        (b'A', 27),
        (b'D', 5),
        (b'C', 9),
        (b'L', 11),
        (b'S', 3),
        (b'E', 3),
        (b'W', 3),
    ];
    for (letter, size) in orders {
        let mut bytes = Vec::from_slice(heap, b"KT")?;
        bytes.push(letter)?;
        bytes.extend_from_slice(&[0u8; 24])?;
        bytes.truncate(size);
        reads(&rt, heap, bytes.as_slice(), 1, size, Ok(()))?;
        let _ = bytes.pop();
        reads(&rt, heap, bytes.as_slice(), 0, 0, Err(Refusal::CutShort))?;
    }
    Ok(())
}

// A file of 32,768 bytes: 10,922 steps and two bytes of another.
#[test]
fn longest_file(rt: HostRuntime) -> Result<(), Fail> {
    let heap = rt.alloc();
    let mut bytes = Vec::new(heap);
    for _ in 0..10_922u32 {
        bytes.extend_from_slice(b"KTS")?;
    }
    reads(&rt, heap, bytes.as_slice(), 10_922, 32_766, Ok(()))?;
    bytes.extend_from_slice(b"KT")?;
    reads(
        &rt,
        heap,
        bytes.as_slice(),
        10_922,
        32_766,
        Err(Refusal::CutShort),
    )
}

// From a source that gives it in two parts, as a pipe may.
fn length_read(heap: Global, first: usize, second: usize) -> Result<usize, Fail> {
    let front = vec![in heap; b'K'; first]?;
    let back = vec![in heap; b'T'; second]?;
    let bytes = read_input(heap, front.as_slice().chain(back.as_slice()))?;
    Ok(bytes.len())
}

#[test]
fn input_within_the_limit_is_read_whole(rt: HostRuntime) -> Result<(), Fail> {
    let heap = rt.alloc();
    assert_eq!(rt; length_read(heap, 0, 0)?, 0);
    assert_eq!(rt; length_read(heap, 3, 24)?, 27);
    assert_eq!(rt; length_read(heap, 32_000, 768)?, 32_768);
    Ok(())
}

#[test]
fn of_longer_input_one_byte_more_is_read(rt: HostRuntime) -> Result<(), Fail> {
    let heap = rt.alloc();
    assert_eq!(rt; length_read(heap, 32_768, 1)?, 32_769);
    assert_eq!(rt; length_read(heap, 1, 70_000)?, 32_769);
    Ok(())
}
