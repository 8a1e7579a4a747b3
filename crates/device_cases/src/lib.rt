// What a lender knows of its memory after code that knows a device only by its trait, and tests of the layouts.
#![tactic(auto)]

ghost use Rattle.std.specs.Prelude.{◌≡◌, length};
ghost use Rattle.rules.specs.Devices.{SameLoans};
ghost use Rattle.rules.specs.Slots.{writing, answer, after};
ghost use Rattle.record_bank.specs.Records.{bank_slots, record_changed};
ghost use Rattle.chip_image.specs.Chip.{chip_slots, chip_changed};

use chip_image::ChipImage;
use record_bank::RecordBank;
use rules::{Refusal, Rule, SlotDevice};

#[cfg(test)]
mod tests;

// As a dial rule it is mangled, since word B is not 0; as a packet rule it is mangled, since word A is not under the mask.
pub const MANGLED: Rule = Rule {
    number: 0x0102,
    priority: 0x0304,
    action: 0x0506_0708,
    word_a: 2,
    word_b: 1,
};

pub fn write_any<D: SlotDevice>(device: &mut D, slot: u16, rule: Rule) -> Result<(), Refusal>
    ensures answer { result ≡ answer (writing (length (D.SlotDevice.slots device.old)) slot rule) }
    ensures memory { D.SlotDevice.memory device.new ≡ after D.SlotDevice.stored (D.SlotDevice.memory device.old) (writing (length (D.SlotDevice.slots device.old)) slot rule) }
    ensures same { SameLoans D.SlotDevice device.old device.new }
{
    device.write(slot, rule)
}

pub fn write_records(records: &mut [Rule], slot: u16, rule: Rule) -> Result<(), Refusal>
    ensures memory { records.new ≡ after record_changed records.old (writing (length (bank_slots records.old)) slot rule) }
{
    let mut bank = RecordBank::over(records);
    write_any(&mut bank, slot, rule)
}

pub fn write_words(words: &mut [u64], slot: u16, rule: Rule) -> Result<(), Refusal>
    ensures memory { words.new ≡ after chip_changed words.old (writing (length (chip_slots words.old)) slot rule) }
{
    let mut chip = ChipImage::over(words);
    write_any(&mut chip, slot, rule)
}
