// The record bank: dial rules in the caller's records, one slot to a record.
ghost use Rattle.std.specs.Prelude.{◌≡◌, ℕ, ◌<◌, length, None, slice_index_or};
ghost use Rattle.std.proofs.Common.{lit≤};
ghost use Rattle.rules.specs.Slots.{untraced, Possible, carried_out};
ghost use Rattle.rules.proofs.Records.{first_records_lawful};
ghost use Rattle.record_bank.specs.Records.{LentRecords, most_slots, bank_slots, record_changed};

use kinds::Dial;
use rules::{Event, Refusal, Rule, SlotDevice, slot_matches};

// Kept: one constant with the slots that a board uses would be no plainer: they are two rules, of which each may change alone.
const MOST_SLOTS: usize = 480;

// Records past the first 480 are not slots, and are never read or written.
#[derive(Drop)]
pub struct RecordBank<'a> {
    records: &'a mut [Rule],
}

impl<'a> RecordBank<'a> {
    // The caller has the records back, as the device left them, when the device is let go.
    pub fn over(records: &'a mut [Rule]) -> RecordBank<'a>
        ensures memory { result.records.now ≡ records.old }
        ensures same { result.records.ghost_name ≡ records.entry.ghost_name }
    {
        RecordBank { records }
    }

    // How many of the caller's records are slots.
    #[tactic(auto, using(crate::proofs::Banks::length_bank))]
    fn slot_count(&self) -> u16
        ensures { result ≡ length (bank_slots self.now.records.now) }
    {
        self.records.len().min(MOST_SLOTS) as u16
    }

    #[tactic(auto, using(crate::proofs::Banks::bank_at))]
    fn at(&self, slot: u16) -> Option<Rule>
        requires { slot < length (bank_slots self.now.records.now) }
        ensures { result ≡ slice_index_or (bank_slots self.now.records.now) slot None }
    {
        self.records[usize::from(slot)].in_slot()
    }

    // Writes the one record that an event is of.
    #[tactic(auto, using(crate::proofs::Banks::bank_set))]
    fn carry_out(&mut self, event: Event)
        requires { Possible (length (bank_slots self.old.records.now)) event }
        ensures slots { bank_slots self.new.records.now ≡ carried_out (bank_slots self.old.records.now) event }
        ensures memory { self.new.records.now ≡ record_changed self.old.records.now event }
        ensures same { self.new.records.ghost_name ≡ self.old.records.ghost_name }
    {
        match event {
            Event::Write(slot, rule) => self.records[usize::from(slot)] = rule,
            Event::Erase(slot) => self.records[usize::from(slot)] = Rule::ZERO,
        }
    }
}

impl<'a> SlotDevice for RecordBank<'a> {
    type Kind = Dial;

    ghost slots = { λ bank. bank_slots bank.records.now };

    ghost trace = { λ bank. 0 };

    ghost traced = { untraced };

    ghost Lent = { LentRecords };

    ghost memory = { λ bank. bank.records.now };

    ghost stored = { record_changed };

    ghost Lenders = { ℕ };

    ghost lenders = { λ bank. bank.records.ghost_name };

    fn count(&self) -> u16 {
        self.slot_count()
    }

    // Kept: a trait under this device and the other would be no plainer: its functions would ask for a slot within, which these few lines see to.
    fn read(&self, slot: u16) -> Result<Option<Rule>, Refusal> {
        if slot >= self.slot_count() {
            return Err(Refusal::OffTheTable);
        }
        Ok(self.at(slot))
    }

    fn write(&mut self, slot: u16, rule: Rule) -> Result<(), Refusal> {
        let event = Event::writing(self.slot_count(), slot, rule)?;
        self.carry_out(event);
        Ok(())
    }

    fn erase(&mut self, slot: u16) -> Result<(), Refusal> {
        let event = Event::erasing(self.slot_count(), slot)?;
        self.carry_out(event);
        Ok(())
    }

    fn first_match(&self, subject: u64) -> Option<u16> {
        (0..self.slot_count()).find(|slot| slot_matches::<Dial>(self.at(*slot), subject))
    }

    ghost lawful = { λ bank. first_records_lawful most_slots bank.records.now (lit≤ tt) };
}
