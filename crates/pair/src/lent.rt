// One call to two lent devices as a pair. The pair is put together for the call and given up again, and their owner knows what each then holds.
ghost use Rattle.std.specs.Prelude.{◌≡◌};
ghost use Rattle.rules.specs.Devices.{CarriesOut};
ghost use Rattle.rules.specs.Slots.{erasing, answer};
ghost use Rattle.pair.specs.Halves.{writing_of, on_half, on_first, on_second};

use crate::devices::Pair;
use rules::{Refusal, Rule, SlotDevice};

// The device that the slot is not in stays as it is, and a refusal leaves both as they are.
pub fn write_pair<D: SlotDevice, E: SlotDevice<Kind = D::Kind>>(
    first: &mut D,
    second: &mut E,
    slot: u16,
    rule: Rule,
) -> Result<(), Refusal>
    ensures answer { result ≡ answer (on_half (writing_of rule) (D.SlotDevice.slots first.old) (E.SlotDevice.slots second.old) slot) }
    ensures first { CarriesOut D.SlotDevice (on_first (writing_of rule) (D.SlotDevice.slots first.old) (E.SlotDevice.slots second.old) slot) first.old first.new }
    ensures second { CarriesOut E.SlotDevice (on_second (writing_of rule) (D.SlotDevice.slots first.old) (E.SlotDevice.slots second.old) slot) second.old second.new }
{
    Pair { first, second }.write_half(slot, rule)
}

// The same of an erase.
// Kept: one function for both would be no plainer, as in `Pair` itself.
pub fn erase_pair<D: SlotDevice, E: SlotDevice<Kind = D::Kind>>(
    first: &mut D,
    second: &mut E,
    slot: u16,
) -> Result<(), Refusal>
    ensures answer { result ≡ answer (on_half erasing (D.SlotDevice.slots first.old) (E.SlotDevice.slots second.old) slot) }
    ensures first { CarriesOut D.SlotDevice (on_first erasing (D.SlotDevice.slots first.old) (E.SlotDevice.slots second.old) slot) first.old first.new }
    ensures second { CarriesOut E.SlotDevice (on_second erasing (D.SlotDevice.slots first.old) (E.SlotDevice.slots second.old) slot) second.old second.new }
{
    Pair { first, second }.erase_half(slot)
}
