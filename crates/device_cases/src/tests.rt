// The layouts on a few literal records and words.
use crate::MANGLED;
use chip_image::ChipImage;
use pair::Pair;
use record_bank::RecordBank;
use recorder::Recorder;
use rules::{Rule, SlotDevice};

// Number 0 with other fields set.
const UNNUMBERED: Rule = Rule {
    number: 0,
    priority: 9,
    action: 9,
    word_a: 9,
    word_b: 9,
};

// The number that a slot's rule has, 0 for an empty slot, or none where read refuses.
fn number_at<D: SlotDevice>(device: &D, slot: u16) -> Option<u16> {
    let held = device.read(slot).ok()?;
    Some(held.map_or(0, |rule| rule.number))
}

#[test]
fn records_past_480_are_no_slots(rt: HostRuntime) {
    let mut records = [Rule::ZERO; 481];
    let bank = RecordBank::over(&mut records);
    assert!(rt; bank.count() == 480);
    assert_eq!(rt; number_at(&bank, 479), Some(0));
    assert_eq!(rt; number_at(&bank, 480), None);
}

#[test]
fn a_mangled_rule_is_written(rt: HostRuntime) {
    let mut records = [Rule::ZERO; 2];
    let mut bank = RecordBank::over(&mut records);
    assert!(rt; bank.write(1, MANGLED).is_ok());
    assert_eq!(rt; number_at(&bank, 1), Some(0x0102));
    assert!(rt; records[1].word_b == 1);
    assert!(rt; records[0].number == 0);
}

#[test]
fn a_record_without_number_is_an_empty_slot(rt: HostRuntime) {
    let mut records = [UNNUMBERED; 2];
    let mut bank = RecordBank::over(&mut records);
    assert_eq!(rt; number_at(&bank, 0), Some(0));
    assert!(rt; bank.write(0, UNNUMBERED).is_err());
    assert!(rt; bank.erase(1).is_ok());
    assert!(rt; records[0].word_b == 9);
    assert!(rt; records[1].word_b == 0);
}

#[test]
fn only_whole_blocks_have_slots(rt: HostRuntime) {
    let mut too_few = [0; 143];
    assert!(rt; ChipImage::over(&mut too_few).count() == 0);
    let mut block = [0; 144];
    assert!(rt; ChipImage::over(&mut block).count() == 48);
}

#[test]
fn slot_0_has_the_last_address(rt: HostRuntime) {
    let mut words = [0; 144];
    let mut chip = ChipImage::over(&mut words);
    assert!(rt; chip.write(0, MANGLED).is_ok());
    assert_eq!(rt; number_at(&chip, 0), Some(0x0102));
    assert!(rt; words[47] == 0x0102_0304_0506_0708);
    assert!(rt; words[95] == 2);
    assert!(rt; words[143] == 1);
}

#[test]
fn a_header_without_number_is_an_empty_slot(rt: HostRuntime) {
    let mut words = [0x0000_0304_0506_0708; 288];
    let mut chip = ChipImage::over(&mut words);
    assert!(rt; chip.count() == 96);
    assert_eq!(rt; number_at(&chip, 95), Some(0));
    assert!(rt; chip.erase(95).is_ok());
    assert!(rt; words[0] == 0);
    assert!(rt; words[48] == 0);
    assert!(rt; words[96] == 0);
    assert!(rt; words[144] == 0x0000_0304_0506_0708);
}

#[test]
fn the_second_half_follows_the_first(rt: HostRuntime) {
    let mut first = [Rule::ZERO; 2];
    let mut second = [Rule::ZERO; 1];
    let mut pair = Pair {
        first: RecordBank::over(&mut first),
        second: RecordBank::over(&mut second),
    };
    assert!(rt; pair.count() == 3);
    assert!(rt; pair.write(2, MANGLED).is_ok());
    assert!(rt; pair.write(3, MANGLED).is_err());
    assert_eq!(rt; number_at(&pair, 2), Some(0x0102));
    assert!(rt; second[0].number == 0x0102);
}

#[test]
fn a_recorder_shows_the_order_of_events(rt: HostRuntime) {
    let mut records = [Rule::ZERO; 2];
    let mut recorder = Recorder {
        device: RecordBank::over(&mut records),
        trace: 1,
    };
    assert!(rt; recorder.write(1, MANGLED).is_ok());
    assert!(rt; recorder.write(2, MANGLED).is_err());
    assert!(rt; recorder.erase(0).is_ok());
    assert!(rt; recorder.trace == 0x1_0102_0000);
}
