// One walk over the slots finds all that a new rule's place depends on.
ghost use Rattle.std.specs.Prelude.{◌≡◌};
ghost use Rattle.shifting.specs.Slots.{low, high, tied};

use crate::reading::{slot_at, usable_slots};
use crate::span::last_of;
use crate::standing::standing_of;
use rules::{Rule, SlotDevice};
use std::cmp::Ordering;

#[derive(Clone, Copy)]
pub(crate) struct Survey {
    // the slots between which the new rule may go, both included
    pub(crate) span: (u16, u16),
    // whether a meeting rule has equal priority
    pub(crate) tied: bool,
}

// From the last slot down: the first meeting rule with higher priority is the last of them, and the last one with lower priority the first.
pub(crate) fn look_over<D: SlotDevice>(device: &D, new: Rule) -> Survey
    ensures low { result.span.0 ≡ low D.Kind.Kind.meaning (D.SlotDevice.slots device.now) new }
    ensures high { result.span.1 ≡ high D.Kind.Kind.meaning (D.SlotDevice.slots device.now) new }
    ensures tied { result.tied ≡ tied D.Kind.Kind.meaning (D.SlotDevice.slots device.now) new }
{
    let count = usable_slots(device);
    let mut from = 0;
    let mut to = last_of(count);
    let mut tied = false;
    for slot in (0..count).rev() {
        match standing_of::<D::Kind>(new, slot_at(device, slot)) {
            Some(Ordering::Greater) => from = from.max(slot + 1),
            Some(Ordering::Less) => to = slot,
            Some(Ordering::Equal) => tied = true,
            None => {}
        }
    }
    Survey {
        span: (from, to),
        tied,
    }
}
