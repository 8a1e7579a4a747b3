// What stands in the slots that a board uses.
ghost use Rattle.std.specs.Prelude.{◌≡◌};
ghost use Rattle.shifting.specs.Slots.{at, usable};

use rules::{Rule, SlotDevice};

// A board uses no slot past the first 480.
const MOST_SLOTS: u16 = 480;

// What stands in a slot; past the last slot nothing does.
pub fn slot_at<D: SlotDevice>(device: &D, slot: u16) -> Option<Rule>
    ensures { result ≡ at (D.SlotDevice.slots device.now) slot }
{
    device.read(slot).unwrap_or(None)
}

pub fn usable_slots<D: SlotDevice>(device: &D) -> u16
    ensures { result ≡ usable (D.SlotDevice.slots device.now) }
{
    device.count().min(MOST_SLOTS)
}
