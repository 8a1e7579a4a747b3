// The span of a new rule, and why it may have no place.
ghost use Rattle.std.specs.Prelude.{◌≡◌, suc, ◌-◌, nat_lt};
ghost use Rattle.shifting.specs.Slots.{low, high, tied};
ghost use Rattle.placing.specs.Placing.{full_from};

use crate::reading::usable_slots;
use crate::scanning::{first_passing, past_last_passing};
use crate::slot_tests::{is_empty, stands_above, stands_below, stands_level};
use rules::{Rule, SlotDevice};

// The last slot that a board uses of so many, or 0.
pub(crate) fn last_of(count: u16) -> u16
    ensures { result ≡ count - 1 }
{
    count.saturating_sub(1)
}

// The slots between which a new rule may go, both included.
// Kept: `look_over` finds low, high and a tie in one walk, but reads every slot; the walks here and in `is_tied` end at the rule that they look for.
pub fn span<D: SlotDevice>(device: &D, new: Rule) -> (u16, u16)
    ensures low { result.0 ≡ low D.Kind.Kind.meaning (D.SlotDevice.slots device.now) new }
    ensures high { result.1 ≡ high D.Kind.Kind.meaning (D.SlotDevice.slots device.now) new }
{
    let count = usable_slots(device);
    let low = past_last_passing(device, count, |held| stands_above::<D::Kind>(new, held));
    let below = first_passing(device, 0, count, |held| stands_below::<D::Kind>(new, held));
    (low, below.unwrap_or(count).min(last_of(count)))
}

pub fn is_tied<D: SlotDevice>(device: &D, new: Rule) -> bool
    ensures { result ≡ tied D.Kind.Kind.meaning (D.SlotDevice.slots device.now) new }
{
    first_passing(
        device,
        0,
        usable_slots(device),
        |held| stands_level::<D::Kind>(new, held),
    )
    .is_some()
}

// Whether a span is crossed: it begins past the slot after its last.
pub(crate) fn is_crossed(from: u16, to: u16) -> bool
    ensures { result ≡ nat_lt (suc to) from }
{
    to.saturating_add(1) < from
}

// Whether no slot from this one on is empty.
pub(crate) fn is_full<D: SlotDevice>(device: &D, from: u16) -> bool
    ensures { result ≡ full_from (D.SlotDevice.slots device.now) from }
{
    first_passing(device, from, usable_slots(device), is_empty).is_none()
}
