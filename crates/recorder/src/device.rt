// Any slot device, with a trace that shows its last events.
ghost use Rattle.recorder.specs.Recorded.{recorded};

use crate::trace::recorded;
use rules::{Event, Refusal, Rule, SlotDevice};

// It does what its device does; only the trace is its own.
#[derive(Drop)]
pub struct Recorder<D> {
    pub device: D,
    pub trace: u128,
}

impl<D: SlotDevice> SlotDevice for Recorder<D> {
    type Kind = D::Kind;

    ghost slots = { λ recorder. D.SlotDevice.slots recorder.device };

    ghost trace = { λ recorder. recorder.trace };

    ghost traced = { recorded };

    ghost Lent = { D.SlotDevice.Lent };

    ghost memory = { λ recorder. D.SlotDevice.memory recorder.device };

    ghost stored = { D.SlotDevice.stored };

    ghost Lenders = { D.SlotDevice.Lenders };

    ghost lenders = { λ recorder. D.SlotDevice.lenders recorder.device };

    fn count(&self) -> u16 {
        self.device.count()
    }

    fn read(&self, slot: u16) -> Result<Option<Rule>, Refusal> {
        self.device.read(slot)
    }

    fn write(&mut self, slot: u16, rule: Rule) -> Result<(), Refusal> {
        let event = Event::writing(self.device.count(), slot, rule)?;
        self.trace = recorded(self.trace, event);
        self.device.write(slot, rule)
    }

    fn erase(&mut self, slot: u16) -> Result<(), Refusal> {
        let event = Event::erasing(self.device.count(), slot)?;
        self.trace = recorded(self.trace, event);
        self.device.erase(slot)
    }

    fn first_match(&self, subject: u64) -> Option<u16> {
        self.device.first_match(subject)
    }

    ghost lawful = { λ recorder. D.SlotDevice.lawful recorder.device };
}
