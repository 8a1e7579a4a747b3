// The order of writes, as a recorder shows it: two digits of the slot, then two of the rule's number, or 00 for an erase.
use crate::look_ups::serve_look_ups;
use kinds::Dial;
use order_run::run_orders;
use record_bank::RecordBank;
use recorder::Recorder;
use rules::Rule;
use std::alloc::Global;
use std::test::Fail;

// Add 9! and complete it; add 90 at a higher priority.
const TWO_ADDS: &[u8; 57] =
    b"KTA\x00\x01\x00\x0a\x00\x00\x00\x64\x9e\xff\xff\xff\xff\xff\xff\xff\x00\x00\x00\x00\x00\x00\x00\x00KTEKTA\x00\x02\x00\x14\x00\x00\x00\xc8\x90\xff\xff\xff\xff\xff\xff\xff\x00\x00\x00\x00\x00\x00\x00\x00";

// The last events after the two adds and these orders.
fn last_events(heap: Global, orders: &[u8]) -> Result<u128, Fail> {
    let mut file = Vec::from_slice(heap, TWO_ADDS)?;
    file.extend_from_slice(orders)?;
    let mut records = [Rule::ZERO; 6];
    let mut recorder = Recorder {
        device: RecordBank::over(&mut records),
        trace: 1,
    };
    let _lines = run_orders(heap, &mut recorder, 1, file.as_slice())?;
    Ok(recorder.trace)
}

// Opening erases each slot once, from slot 0 up; rule 1 is copied down before rule 2 stands over it.
#[test]
fn writes_of_an_add(rt: HostRuntime) -> Result<(), Fail> {
    let heap = rt.alloc();
    assert!(rt; last_events(heap, b"KTE")? == 0x0100_0200_0300_0400_0500_0001_0101_0002);
    assert!(rt; last_events(heap, b"KTSKTS")? == 0x0100_0200_0300_0400_0500_0001_0101_0002);
    Ok(())
}

// Withdrawn half-way, by an order or at the end: the slot last written is erased.
#[test]
fn erase_of_a_withdraw(rt: HostRuntime) -> Result<(), Fail> {
    let heap = rt.alloc();
    assert!(rt; last_events(heap, b"KTSKTW")? == 0x0100_0200_0300_0400_0500_0001_0101_0100);
    assert!(rt; last_events(heap, b"KTS")? == 0x0100_0200_0300_0400_0500_0001_0101_0100);
    assert!(rt; last_events(heap, b"")? == 0x0000_0100_0200_0300_0400_0500_0001 + (1 << 112));
    Ok(())
}

// A change is one write, and a drop one erase.
#[test]
fn change_and_drop(rt: HostRuntime) -> Result<(), Fail> {
    let heap = rt.alloc();
    assert!(rt;
        last_events(heap, b"KTEKTC\0\x01\0\0\0\x07")? == 0x0200_0300_0400_0500_0001_0101_0002_0101
    );
    assert!(rt; last_events(heap, b"KTEKTD\0\x01")? == 0x0200_0300_0400_0500_0001_0101_0002_0100);
    Ok(())
}

// A board is cleared before its first call: what the records held is not found.
#[test]
fn a_caller_that_promises_nothing(rt: HostRuntime) {
    let nine = Rule {
        number: 1,
        priority: 1,
        action: 1,
        word_a: 0x9eff_ffff_ffff_ffff,
        word_b: 0,
    };
    let mut records = [nine; 3];
    let mut recorder = Recorder {
        device: RecordBank::over(&mut records),
        trace: 1,
    };
    assert_eq!(rt;
        serve_look_ups(&mut recorder, 1, 0x90ff_ffff_ffff_ffff, 5),
        0
    );
    assert!(rt; recorder.trace == 0x1_0000_0100_0200);
}
