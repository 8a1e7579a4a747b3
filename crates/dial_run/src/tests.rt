// Runs from orders to lines, and the records that they leave.
use crate::{printed, run_dial_orders, run_on_six_slots};
use rules::Rule;
use std::alloc::{AllocError, Global};
use std::process::Abort;
use std::test::Fail;

// The patterns have two signs, four bits each, before their end: 0x9e is 9!, and 0x1f is 1.
fn add(
    orders: &mut Vec<u8>,
    number: u8,
    priority: u8,
    action: u8,
    pattern: u8,
) -> Result<(), AllocError> {
    orders.extend_from_slice(b"KTA\0")?;
    orders.push(number)?;
    orders.push(0)?;
    orders.push(priority)?;
    orders.extend_from_slice(b"\0\0\0")?;
    orders.push(action)?;
    orders.push(pattern)?;
    orders.extend_from_slice(b"\xff\xff\xff\xff\xff\xff\xff\0\0\0\0\0\0\0\0")
}

fn look_up(orders: &mut Vec<u8>, subject: u8) -> Result<(), AllocError> {
    orders.extend_from_slice(b"KTL")?;
    orders.push(subject)?;
    orders.extend_from_slice(b"\xff\xff\xff\xff\xff\xff\xff")
}

// Add 9!, complete, add 90, step, look 90 up, then this order, and look 90 up.
fn worked(heap: Global, order: &[u8]) -> Result<Vec<u8>, AllocError> {
    let mut orders = Vec::new(heap);
    add(&mut orders, 1, 10, 100, 0x9e)?;
    orders.extend_from_slice(b"KTE")?;
    add(&mut orders, 2, 20, 200, 0x90)?;
    orders.extend_from_slice(b"KTS")?;
    look_up(&mut orders, 0x90)?;
    orders.extend_from_slice(order)?;
    look_up(&mut orders, 0x90)?;
    Ok(orders)
}

fn prints(rt: &impl Abort, heap: Global, input: &[u8], lines: &str) -> Result<(), Fail> {
    let text = run_on_six_slots(heap, input)?;
    assert_eq!(rt; text.as_str(), lines);
    Ok(())
}

#[test]
fn worked_example(rt: HostRuntime) -> Result<(), Fail> {
    let heap = rt.alloc();
    let orders = worked(heap, b"KTE")?;
    prints(
        &rt,
        heap,
        orders.as_slice(),
        "A 0 0 1\nE 27 0 1\nA 30 0 2\nS 57 0 1\nL 60 0 100\nE 71 0 2\nL 74 0 200\n",
    )
}

#[test]
fn withdraw_in_place_of_complete(rt: HostRuntime) -> Result<(), Fail> {
    let heap = rt.alloc();
    let orders = worked(heap, b"KTW")?;
    prints(
        &rt,
        heap,
        orders.as_slice(),
        "A 0 0 1\nE 27 0 1\nA 30 0 2\nS 57 0 1\nL 60 0 100\nW 71 0 0\nL 74 0 100\n",
    )
}

#[test]
fn no_ticket_in_hand(rt: HostRuntime) -> Result<(), Fail> {
    let heap = rt.alloc();
    prints(&rt, heap, b"", "")?;
    prints(&rt, heap, b"KTSKTEKTW", "S 0 9 0\nE 3 9 0\nW 6 9 0\n")?;
    let orders = worked(heap, b"KTEKTEKTW")?;
    prints(
        &rt,
        heap,
        orders.as_slice(),
        "A 0 0 1\nE 27 0 1\nA 30 0 2\nS 57 0 1\nL 60 0 100\nE 71 0 2\nE 74 9 0\nW 77 9 0\nL 80 0 200\n",
    )
}

// Look up in vain, a subject that nobody dials, drop and change of a rule that is not in force.
#[test]
fn nothing_in_force(rt: HostRuntime) -> Result<(), Fail> {
    let heap = rt.alloc();
    let mut orders = Vec::new(heap);
    look_up(&mut orders, 0x90)?;
    look_up(&mut orders, 0xc0)?;
    orders.extend_from_slice(b"KTD\0\x01KTC\0\x01\0\0\0\x07")?;
    prints(
        &rt,
        heap,
        orders.as_slice(),
        "L 0 0 -\nL 11 8 0\nD 22 7 0\nC 27 7 0\n",
    )
}

// A rule is changed and dropped; while an add is open both are refused, and a step past the last write too.
#[test]
fn change_and_drop(rt: HostRuntime) -> Result<(), Fail> {
    let heap = rt.alloc();
    let mut orders = Vec::new(heap);
    add(&mut orders, 1, 10, 100, 0x9e)?;
    orders.extend_from_slice(b"KTSKTSKTC\0\x01\0\0\0\x07KTD\0\x01KTE")?;
    orders.extend_from_slice(b"KTC\0\x01\0\0\0\x07")?;
    look_up(&mut orders, 0x91)?;
    orders.extend_from_slice(b"KTD\0\x01")?;
    look_up(&mut orders, 0x91)?;
    prints(
        &rt,
        heap,
        orders.as_slice(),
        "A 0 0 1\nS 27 0 0\nS 30 10 0\nC 33 1 0\nD 42 1 0\nE 47 0 1\nC 50 0 0\nL 59 0 7\nD 70 0 0\nL 75 0 -\n",
    )
}

// Add: busy, mangled, known, tied and crossed.
#[test]
fn adds_refused(rt: HostRuntime) -> Result<(), Fail> {
    let heap = rt.alloc();
    let mut orders = Vec::new(heap);
    add(&mut orders, 1, 1, 100, 0x1f)?;
    add(&mut orders, 2, 9, 200, 0x2f)?;
    orders.extend_from_slice(b"KTE")?;
    add(&mut orders, 0, 9, 200, 0x2f)?;
    add(&mut orders, 1, 9, 200, 0x2f)?;
    add(&mut orders, 3, 1, 30, 0xcf)?;
    add(&mut orders, 2, 9, 200, 0x2f)?;
    orders.extend_from_slice(b"KTE")?;
    add(&mut orders, 3, 5, 30, 0xcf)?;
    prints(
        &rt,
        heap,
        orders.as_slice(),
        "A 0 0 1\nA 27 1 0\nE 54 0 1\nA 57 2 0\nA 84 3 0\nA 111 4 0\nA 138 0 1\nE 165 0 1\nA 168 5 0\n",
    )
}

// The seventh rule finds no slot.
#[test]
fn full_board(rt: HostRuntime) -> Result<(), Fail> {
    let heap = rt.alloc();
    let mut orders = Vec::new(heap);
    for number in 1..8u8 {
        add(&mut orders, number, 1, number, 16 * number + 15)?;
        orders.extend_from_slice(b"KTE")?;
    }
    prints(
        &rt,
        heap,
        orders.as_slice(),
        "A 0 0 1\nE 27 0 1\nA 30 0 1\nE 57 0 1\nA 60 0 1\nE 87 0 1\nA 90 0 1\nE 117 0 1\nA 120 0 1\nE 147 0 1\nA 150 0 1\nE 177 0 1\nA 180 6 0\nE 207 9 0\n",
    )
}

// A damaged order ends the run, and the open add is taken back: its one write of two is erased.
#[test]
fn damaged_while_shifting(rt: HostRuntime) -> Result<(), Fail> {
    let heap = rt.alloc();
    let orders = worked(heap, b"KTZKTEKTE")?;
    let mut records = [Rule::ZERO; 6];
    let text = run_dial_orders(heap, &mut records, orders.as_slice())?;
    assert_eq!(rt;
        text.as_str(),
        "A 0 0 1\nE 27 0 1\nA 30 0 2\nS 57 0 1\nL 60 0 100\n? 71 13 0\n"
    );
    assert_eq!(rt; records[0].number, 1);
    assert_eq!(rt; records[1].number, 0);
    Ok(())
}

// The ticket is open at the end, with no write left: the new rule stays.
#[test]
fn open_at_the_end(rt: HostRuntime) -> Result<(), Fail> {
    let heap = rt.alloc();
    let orders = worked(heap, b"KTS")?;
    let mut records = [Rule::ZERO; 6];
    let text = run_dial_orders(heap, &mut records, orders.as_slice())?;
    assert_eq!(rt;
        text.as_str(),
        "A 0 0 1\nE 27 0 1\nA 30 0 2\nS 57 0 1\nL 60 0 100\nS 71 0 0\nL 74 0 200\n"
    );
    assert_eq!(rt; records[0].number, 2);
    assert_eq!(rt; records[1].number, 1);
    Ok(())
}

#[test]
fn damaged_orders(rt: HostRuntime) -> Result<(), Fail> {
    let heap = rt.alloc();
    prints(&rt, heap, b"xyz", "? 0 12 0\n")?;
    prints(&rt, heap, b"KTSKTZKTS", "S 0 9 0\n? 3 13 0\n")?;
    prints(&rt, heap, b"KTSK", "S 0 9 0\n? 3 14 0\n")
}

// Exactly 32,768 bytes are run, here to the damaged order at their start; one more are too long.
#[test]
fn the_longest_file(rt: HostRuntime) -> Result<(), Fail> {
    let heap = rt.alloc();
    let mut file = vec![in heap; b'K'; 32_768]?;
    assert_eq!(rt; printed(heap, file.as_slice())?.as_str(), "? 0 12 0\n");
    file.push(b'K')?;
    assert_eq!(rt; printed(heap, file.as_slice())?.as_str(), "long\n");
    Ok(())
}
