// What a device carries out: one write or one erase.
ghost use Rattle.std.specs.Prelude.{◌≡◌, IfOk};
ghost use Rattle.rules.specs.Slots.{writing, erasing, Possible};

use crate::refusal::Refusal;
use crate::rule::Rule;

#[derive(Clone, Copy)]
pub enum Event {
    // a rule comes into a slot
    Write(u16, Rule),
    // a slot is emptied
    Erase(u16),
}

impl Event {
    // The write of a rule to a slot of a device with so many slots.
    pub fn writing(count: u16, slot: u16, rule: Rule) -> Result<Event, Refusal>
        ensures answer { result ≡ writing count slot rule }
        ensures possible { IfOk result (Possible count) }
    {
        if rule.number == 0 {
            return Err(Refusal::Mangled);
        }
        if slot >= count {
            return Err(Refusal::OffTheTable);
        }
        Ok(Event::Write(slot, rule))
    }

    // The erase of a slot of a device with so many slots.
    pub fn erasing(count: u16, slot: u16) -> Result<Event, Refusal>
        ensures answer { result ≡ erasing count slot }
        ensures possible { IfOk result (Possible count) }
    {
        if slot >= count {
            return Err(Refusal::OffTheTable);
        }
        Ok(Event::Erase(slot))
    }
}
