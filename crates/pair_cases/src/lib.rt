// What the lender of two devices' memory knows of it, once a pair over both is let go.
#![tactic(auto)]

ghost use Rattle.std.specs.Prelude.{◌≡◌, length};
ghost use Rattle.rules.specs.Devices.{SameLoans};
ghost use Rattle.rules.specs.Slots.{writing, erasing, answer, after};
ghost use Rattle.record_bank.specs.Records.{bank_slots, record_changed};
ghost use Rattle.pair.specs.Halves.{writing_of, on_half, on_first, on_second};
ghost use Rattle.pair.specs.Joined.{joined, both_lent, both_stored};

use device_cases::write_any;
use pair::{Pair, erase_pair, write_pair};
use record_bank::RecordBank;
use rules::{Refusal, Rule, SlotDevice};

#[cfg(test)]
mod tests;

// The owner of two devices knows what both hold when their pair is let go.
pub fn write_any_pair<D: SlotDevice, E: SlotDevice<Kind = D::Kind>>(
    first: &mut D,
    second: &mut E,
    slot: u16,
    rule: Rule,
) -> Result<(), Refusal>
    ensures answer { result ≡ answer (writing (length (joined (D.SlotDevice.slots first.old) (E.SlotDevice.slots second.old))) slot rule) }
    ensures memory { both_lent (D.SlotDevice.slots first.new) (D.SlotDevice.memory first.new) (E.SlotDevice.memory second.new) ≡ after (both_stored D.SlotDevice.stored E.SlotDevice.stored) (both_lent (D.SlotDevice.slots first.old) (D.SlotDevice.memory first.old) (E.SlotDevice.memory second.old)) (writing (length (joined (D.SlotDevice.slots first.old) (E.SlotDevice.slots second.old))) slot rule) }
    ensures same { SameLoans D.SlotDevice first.old first.new }
    ensures same_second { SameLoans E.SlotDevice second.old second.new }
{
    let mut pair = Pair { first, second };
    write_any(&mut pair, slot, rule)
}

pub fn write_any_pair_of_records(
    records: &mut [Rule],
    others: &mut [Rule],
    slot: u16,
    rule: Rule,
) -> Result<(), Refusal>
    ensures memory { both_lent (bank_slots records.new) records.new others.new ≡ after (both_stored record_changed record_changed) (both_lent (bank_slots records.old) records.old others.old) (writing (length (joined (bank_slots records.old) (bank_slots others.old))) slot rule) }
{
    let mut first = RecordBank::over(records);
    let mut second = RecordBank::over(others);
    write_any_pair(&mut first, &mut second, slot, rule)
}

// As the pair's own call says it, of each of the two.
pub fn write_pair_of_records(
    records: &mut [Rule],
    others: &mut [Rule],
    slot: u16,
    rule: Rule,
) -> Result<(), Refusal>
    ensures answer { result ≡ answer (on_half (writing_of rule) (bank_slots records.old) (bank_slots others.old) slot) }
    ensures memory { records.new ≡ after record_changed records.old (on_first (writing_of rule) (bank_slots records.old) (bank_slots others.old) slot) }
    ensures memory_second { others.new ≡ after record_changed others.old (on_second (writing_of rule) (bank_slots records.old) (bank_slots others.old) slot) }
{
    let mut first = RecordBank::over(records);
    let mut second = RecordBank::over(others);
    write_pair(&mut first, &mut second, slot, rule)
}

pub fn erase_pair_of_records(
    records: &mut [Rule],
    others: &mut [Rule],
    slot: u16,
) -> Result<(), Refusal>
    ensures answer { result ≡ answer (on_half erasing (bank_slots records.old) (bank_slots others.old) slot) }
    ensures memory { records.new ≡ after record_changed records.old (on_first erasing (bank_slots records.old) (bank_slots others.old) slot) }
    ensures memory_second { others.new ≡ after record_changed others.old (on_second erasing (bank_slots records.old) (bank_slots others.old) slot) }
{
    let mut first = RecordBank::over(records);
    let mut second = RecordBank::over(others);
    erase_pair(&mut first, &mut second, slot)
}
