// A pair over two lent record banks.
use crate::{erase_pair_of_records, write_any_pair_of_records, write_pair_of_records};
use device_cases::MANGLED;
use pair::Pair;
use record_bank::RecordBank;
use rules::{Rule, SlotDevice};

#[test]
fn the_second_half_follows_the_first(rt: HostRuntime) {
    let mut records = [Rule::ZERO; 2];
    let mut others = [Rule::ZERO; 1];
    let mut first = RecordBank::over(&mut records);
    let mut second = RecordBank::over(&mut others);
    let mut pair = Pair {
        first: &mut first,
        second: &mut second,
    };
    assert!(rt; pair.count() == 3);
    assert!(rt; pair.write(2, MANGLED).is_ok());
    assert!(rt; pair.write(3, MANGLED).is_err());
    assert_eq!(rt; pair.read(2), Ok(Some(MANGLED)));
    assert!(rt; others[0].number == 0x0102);
}

#[test]
fn a_pair_for_one_call(rt: HostRuntime) {
    let mut records = [MANGLED; 2];
    let mut others = [Rule::ZERO; 1];
    assert!(rt; write_pair_of_records(&mut records, &mut others, 2, MANGLED).is_ok());
    assert!(rt; others[0].number == 0x0102);
    assert!(rt; write_any_pair_of_records(&mut records, &mut others, 3, MANGLED).is_err());
    assert!(rt; erase_pair_of_records(&mut records, &mut others, 1).is_ok());
    assert!(rt; records[0].number == 0x0102);
    assert!(rt; records[1].number == 0);
    assert!(rt; others[0].number == 0x0102);
}
