// Two slot devices of one kind as one: the first's slots, then the second's.
ghost use Rattle.std.specs.Prelude.{◌≡◌, length};
ghost use Rattle.rules.specs.Devices.{CarriesOut};
ghost use Rattle.rules.specs.Slots.{untraced, erasing, answer, first_match};
ghost use Rattle.rules.proofs.Records.{joined_lawful};
ghost use Rattle.pair.specs.Halves.{half_of, writing_of, on_half, on_first, on_second, match_in_second};
ghost use Rattle.pair.specs.Joined.{joined, BothLent, both_lent, both_stored};

use crate::half::{Half, both_fit, half_of};
use rules::{Refusal, Rule, SlotDevice};

// If the two have more than 65,535 slots together, the pair is the first alone, and the second is only asked for its count.
#[derive(Drop)]
pub struct Pair<D, E> {
    pub first: D,
    pub second: E,
}

impl<D: SlotDevice, E: SlotDevice<Kind = D::Kind>> Pair<D, E> {
    fn half_at(&self, slot: u16) -> Half
        ensures { result ≡ half_of (length (D.SlotDevice.slots self.now.first)) (length (E.SlotDevice.slots self.now.second)) slot }
    {
        half_of(self.first.count(), self.second.count(), slot)
    }

    // What is written to the pair, said of each device: the one that the slot is not in stays as it is.
    pub(crate) fn write_half(&mut self, slot: u16, rule: Rule) -> Result<(), Refusal>
        ensures answer { result ≡ answer (on_half (writing_of rule) (D.SlotDevice.slots self.old.first) (E.SlotDevice.slots self.old.second) slot) }
        ensures first { CarriesOut D.SlotDevice (on_first (writing_of rule) (D.SlotDevice.slots self.old.first) (E.SlotDevice.slots self.old.second) slot) self.old.first self.new.first }
        ensures second { CarriesOut E.SlotDevice (on_second (writing_of rule) (D.SlotDevice.slots self.old.first) (E.SlotDevice.slots self.old.second) slot) self.old.second self.new.second }
    {
        match self.half_at(slot) {
            Half::First(slot) => self.first.write(slot, rule),
            Half::Second(slot) => self.second.write(slot, rule),
        }
    }

    // The same of an erase.
    // Kept: one function for both would be no plainer: it would take a closure for each device, since the two have different types.
    pub(crate) fn erase_half(&mut self, slot: u16) -> Result<(), Refusal>
        ensures answer { result ≡ answer (on_half erasing (D.SlotDevice.slots self.old.first) (E.SlotDevice.slots self.old.second) slot) }
        ensures first { CarriesOut D.SlotDevice (on_first erasing (D.SlotDevice.slots self.old.first) (E.SlotDevice.slots self.old.second) slot) self.old.first self.new.first }
        ensures second { CarriesOut E.SlotDevice (on_second erasing (D.SlotDevice.slots self.old.first) (E.SlotDevice.slots self.old.second) slot) self.old.second self.new.second }
    {
        match self.half_at(slot) {
            Half::First(slot) => self.first.erase(slot),
            Half::Second(slot) => self.second.erase(slot),
        }
    }

    // The second's first match, by its number in the pair.
    fn match_in_second(&self, subject: u64) -> Option<u16>
        ensures { result ≡ match_in_second (length (D.SlotDevice.slots self.now.first)) (length (E.SlotDevice.slots self.now.second)) (first_match D.Kind.Kind.meaning (E.SlotDevice.slots self.now.second) subject) }
    {
        let count = self.first.count();
        if !both_fit(count, self.second.count()) {
            return None;
        }
        self.second.first_match(subject).map(|slot| count + slot)
    }
}

impl<D: SlotDevice, E: SlotDevice<Kind = D::Kind>> SlotDevice for Pair<D, E> {
    type Kind = D::Kind;

    ghost slots = { λ pair. joined (D.SlotDevice.slots pair.first) (E.SlotDevice.slots pair.second) };

    // A rule of a trace knows no count, so it cannot tell whose trace a slot belongs to.
    ghost trace = { λ pair. 0 };

    ghost traced = { untraced };

    ghost Lent = { BothLent D.SlotDevice.Lent E.SlotDevice.Lent };

    ghost memory = { λ pair. both_lent (D.SlotDevice.slots pair.first) (D.SlotDevice.memory pair.first) (E.SlotDevice.memory pair.second) };

    ghost stored = { both_stored D.SlotDevice.stored E.SlotDevice.stored };

    ghost Lenders = { D.SlotDevice.Lenders × E.SlotDevice.Lenders };

    ghost lenders = { λ pair. (D.SlotDevice.lenders pair.first, E.SlotDevice.lenders pair.second) };

    fn count(&self) -> u16 {
        let first = self.first.count();
        first.checked_add(self.second.count()).unwrap_or(first)
    }

    fn read(&self, slot: u16) -> Result<Option<Rule>, Refusal> {
        match self.half_at(slot) {
            Half::First(slot) => self.first.read(slot),
            Half::Second(slot) => self.second.read(slot),
        }
    }

    #[tactic(auto, using(crate::proofs::Joins::writing_joined))]
    fn write(&mut self, slot: u16, rule: Rule) -> Result<(), Refusal> {
        self.write_half(slot, rule)
    }

    #[tactic(auto, using(crate::proofs::Joins::erasing_joined))]
    fn erase(&mut self, slot: u16) -> Result<(), Refusal> {
        self.erase_half(slot)
    }

    fn first_match(&self, subject: u64) -> Option<u16> {
        let first = self.first.first_match(subject);
        first.or_else(|| self.match_in_second(subject))
    }

    ghost lawful = { λ pair. joined_lawful _ _ (D.SlotDevice.lawful pair.first) (E.SlotDevice.lawful pair.second) };
}
