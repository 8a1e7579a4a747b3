// The chip image: packet rules in the caller's words, three words to a slot.
ghost use Rattle.std.specs.Prelude.{◌≡◌, ℕ, ◌+◌, ◌<◌, length, None, slice_index_or};
ghost use Rattle.std.proofs.Common.{arith};
ghost use Rattle.rules.specs.Slots.{untraced, Possible, carried_out};
ghost use Rattle.rules.proofs.Records.{counted_records_lawful};
ghost use Rattle.chip_image.specs.Layout.{address, header_place};
ghost use Rattle.chip_image.specs.Chip.{LentWords, chip_count, record_at, chip_slots, row_changed, chip_changed};

use crate::layout::{ROWS, Row, address_count, header_place, slot_address};
use kinds::Packet;
use rules::{Event, Refusal, Rule, SlotDevice, slot_matches};

// Words past the first ten blocks, and past the last whole block, are never read or written.
#[derive(Drop)]
pub struct ChipImage<'a> {
    words: &'a mut [u64],
}

impl<'a> ChipImage<'a> {
    // The caller has the words back, as the device left them, when the device is let go.
    pub fn over(words: &'a mut [u64]) -> ChipImage<'a>
        ensures memory { result.words.now ≡ words.old }
        ensures same { result.words.ghost_name ≡ words.entry.ghost_name }
    {
        ChipImage { words }
    }

    #[tactic(auto, using(crate::proofs::Chips::length_chip))]
    fn slot_count(&self) -> u16
        ensures { result ≡ length (chip_slots self.now.words.now) }
    {
        address_count(self.words.len())
    }

    // Where the header of a slot lies.
    // Kept: a type for a slot within would be no plainer: its bound is the count of these words, which another value holds.
    #[tactic(auto, using(crate::proofs::Chips::length_chip))]
    fn place(&self, slot: u16) -> usize
        requires { slot < chip_count self.now.words.now }
        ensures answer { result ≡ header_place (address (chip_count self.now.words.now) slot) }
        ensures within { result + 96 < length self.now.words.now }
    {
        header_place(slot_address(self.slot_count(), slot))
    }

    #[tactic(auto, using(crate::proofs::Chips::length_chip, crate::proofs::Chips::chip_at))]
    fn at(&self, slot: u16) -> Option<Rule>
        requires { slot < length (chip_slots self.now.words.now) }
        ensures { result ≡ slice_index_or (chip_slots self.now.words.now) slot None }
    {
        let place = self.place(slot);
        let row = Row {
            header: self.words[place],
            word_a: self.words[place + ROWS],
            word_b: self.words[place + 2 * ROWS],
        };
        Rule::from(row).in_slot()
    }

    // Writes the three words of a slot.
    fn put(&mut self, slot: u16, row: Row)
        requires { slot < chip_count self.old.words.now }
        ensures memory { self.new.words.now ≡ row_changed self.old.words.now (address (chip_count self.old.words.now) slot) row.header row.word_a row.word_b }
        ensures same { self.new.words.ghost_name ≡ self.old.words.ghost_name }
    {
        let place = self.place(slot);
        self.words[place] = row.header;
        self.words[place + ROWS] = row.word_a;
        self.words[place + 2 * ROWS] = row.word_b;
    }

    #[tactic(auto, using(crate::proofs::Chips::length_chip, crate::proofs::Chips::row_carried, crate::proofs::Headers::header_back))]
    fn carry_out(&mut self, event: Event)
        requires { Possible (length (chip_slots self.old.words.now)) event }
        ensures slots { chip_slots self.new.words.now ≡ carried_out (chip_slots self.old.words.now) event }
        ensures memory { self.new.words.now ≡ chip_changed self.old.words.now event }
        ensures same { self.new.words.ghost_name ≡ self.old.words.ghost_name }
    {
        match event {
            Event::Write(slot, rule) => self.put(slot, Row::from(rule)),
            Event::Erase(slot) => self.put(slot, Row::ZERO),
        }
    }
}

impl<'a> SlotDevice for ChipImage<'a> {
    type Kind = Packet;

    ghost slots = { λ chip. chip_slots chip.words.now };

    ghost trace = { λ chip. 0 };

    ghost traced = { untraced };

    ghost Lent = { LentWords };

    ghost memory = { λ chip. chip.words.now };

    ghost stored = { chip_changed };

    ghost Lenders = { ℕ };

    ghost lenders = { λ chip. chip.words.ghost_name };

    fn count(&self) -> u16 {
        self.slot_count()
    }

    // Kept: a trait under this device and the other would be no plainer: its functions would ask for a slot within, which these few lines see to.
    fn read(&self, slot: u16) -> Result<Option<Rule>, Refusal> {
        if slot >= self.slot_count() {
            return Err(Refusal::OffTheTable);
        }
        Ok(self.at(slot))
    }

    fn write(&mut self, slot: u16, rule: Rule) -> Result<(), Refusal> {
        let event = Event::writing(self.slot_count(), slot, rule)?;
        self.carry_out(event);
        Ok(())
    }

    fn erase(&mut self, slot: u16) -> Result<(), Refusal> {
        let event = Event::erasing(self.slot_count(), slot)?;
        self.carry_out(event);
        Ok(())
    }

    fn first_match(&self, subject: u64) -> Option<u16> {
        (0..self.slot_count()).find(|slot| slot_matches::<Packet>(self.at(*slot), subject))
    }

    ghost lawful = { λ chip. counted_records_lawful (λ slot. record_at chip.words.now (address (chip_count chip.words.now) slot)) (chip_count chip.words.now) (omega arith) };
}
