// A rule by its number.
ghost use Rattle.std.specs.Prelude.{◌≡◌};
ghost use Rattle.turns.specs.Shown.{numbered};

use placing::{first_passing, has_number};
use rules::SlotDevice;

// The first slot whose rule has this number, also past the slots that a board uses.
pub(crate) fn slot_numbered<D: SlotDevice>(device: &D, number: u16) -> Option<u16>
    ensures { result ≡ numbered (D.SlotDevice.slots device.now) number }
{
    first_passing(device, 0, device.count(), |held| has_number(number, held))
}
