// Clearing a device.
ghost use Rattle.std.specs.Prelude.{length};
ghost use Rattle.shifting.specs.Machine.{erases};
ghost use Rattle.turns.specs.Shown.{CarriesOutAll};

use rules::SlotDevice;

// Erases every slot once, from slot 0 up, also those past the slots that a board uses.
pub fn clear<D: SlotDevice>(device: &mut D)
    ensures { CarriesOutAll D.SlotDevice device.old (erases 0 (length (D.SlotDevice.slots device.old))) device.new }
{
    for slot in 0..device.count() {
        let _ = device.erase(slot);
    }
}
