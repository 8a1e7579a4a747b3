// How far the rule in a slot may be moved down.
ghost use Rattle.std.specs.Prelude.{◌≡◌, ◌-◌, max, ◌&&◌, nat_lt};
ghost use Rattle.shifting.specs.Chains.{farthest};
ghost use Rattle.shifting.specs.Slots.{at, clashes, reach};

use crate::reading::{slot_at, usable_slots};
use crate::span::last_of;
use rules::{Kind, Rule, SlotDevice};

// Whether two slots hold meeting rules with different numbers.
fn clash<K: Kind>(slot: Option<Rule>, other: Option<Rule>) -> bool
    ensures { result ≡ clashes K.Kind.meaning slot other }
{
    slot.zip(other).is_some_and(|(rule, other)| rule.meets::<K>(other)
        && rule.number != other.number)
}

// The first later slot whose rule clashes with the one in this slot, or the last slot.
// Kept: a rule of this project: the reach is a loop over later slots that yields its slot by `break`.
pub(crate) fn reach_of<D: SlotDevice>(device: &D, slot: u16) -> u16
    ensures { result ≡ reach D.Kind.Kind.meaning (D.SlotDevice.slots device.now) slot }
{
    let last = last_of(usable_slots(device));
    let held = slot_at(device, slot);
    let mut later = slot;
    loop {
        if later >= last {
            break last;
        }
        later += 1;
        if clash::<D::Kind>(held, slot_at(device, later)) {
            break later;
        }
    }
}

// Whether the rule in a later slot keeps the one in this slot from going past it.
fn is_blocked<D: SlotDevice>(device: &D, slot: u16, later: u16) -> bool
    ensures { result ≡ (nat_lt slot later && clashes D.Kind.Kind.meaning (at (D.SlotDevice.slots device.now) slot) (at (D.SlotDevice.slots device.now) later)) }
{
    slot < later && clash::<D::Kind>(slot_at(device, slot), slot_at(device, later))
}

// The slot's reach, or `least` where that is more. Two quick tests save most walks: no reach is past the last slot, nor past a slot that blocks.
fn reach_beyond<D: SlotDevice>(device: &D, slot: u16, least: u16) -> u16
    ensures { result ≡ max least (reach D.Kind.Kind.meaning (D.SlotDevice.slots device.now) slot) }
{
    if least >= last_of(usable_slots(device)) {
        return least;
    }
    if is_blocked(device, slot, least) {
        return least;
    }
    least.max(reach_of(device, slot))
}

// Of the slots from one to another the one with the greatest reach, and the lowest of several.
pub(crate) fn farthest_of<D: SlotDevice>(device: &D, from: u16, to: u16) -> u16
    ensures { result ≡ farthest (reach D.Kind.Kind.meaning (D.SlotDevice.slots device.now)) from (to - from) }
{
    let mut best = from;
    let mut best_reach = 0;
    for slot in from..=to {
        let slot_reach = reach_beyond(device, slot, best_reach);
        if best_reach < slot_reach {
            best = slot;
            best_reach = slot_reach;
        }
    }
    best
}
