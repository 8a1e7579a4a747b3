// A device that is lent is a device: its slots, its trace and its memory are those of the device behind the reference.
ghost use Rattle.std.specs.Prelude.{ℕ};

use crate::device::SlotDevice;
use crate::refusal::Refusal;
use crate::rule::Rule;

impl<'a, D: SlotDevice> SlotDevice for &'a mut D {
    type Kind = D::Kind;

    ghost slots = { λ device. D.SlotDevice.slots device.now };

    ghost trace = { λ device. D.SlotDevice.trace device.now };

    ghost traced = { D.SlotDevice.traced };

    ghost Lent = { D.SlotDevice.Lent };

    ghost memory = { λ device. D.SlotDevice.memory device.now };

    ghost stored = { D.SlotDevice.stored };

    ghost Lenders = { ℕ × D.SlotDevice.Lenders };

    ghost lenders = { λ device. (device.ghost_name, D.SlotDevice.lenders device.now) };

    fn count(&self) -> u16 {
        (**self).count()
    }

    fn read(&self, slot: u16) -> Result<Option<Rule>, Refusal> {
        (**self).read(slot)
    }

    fn write(&mut self, slot: u16, rule: Rule) -> Result<(), Refusal> {
        (**self).write(slot, rule)
    }

    fn erase(&mut self, slot: u16) -> Result<(), Refusal> {
        (**self).erase(slot)
    }

    fn first_match(&self, subject: u64) -> Option<u16> {
        (**self).first_match(subject)
    }

    ghost lawful = { λ device. D.SlotDevice.lawful device.now };
}
