// A slot device: slots, each empty or taken by a rule of one kind.
ghost use Rattle.std.specs.Prelude.{◌≡◌, ℕ, List, length};
ghost use Rattle.rules.specs.declared.event.Event.{Event};
ghost use Rattle.rules.specs.Slots.{Slot, SlotLaws, reading, writing, erasing, answer, carried_out, after, slot_matches, first_match};

use crate::kind::Kind;
use crate::refusal::Refusal;
use crate::rule::Rule;

// Whether a slot holds a rule that matches.
pub fn slot_matches<K: Kind>(slot: Option<Rule>, subject: u64) -> bool
    ensures { result ≡ slot_matches K.Kind.meaning subject slot }
{
    slot.is_some_and(|rule| K::matches(rule.words(), subject))
}

// What a device does is fixed by its slots, but for the rule of its trace, which is free.
// Kept: one definition of what write and erase leave would be no plainer here: it is over the members (`CarriesOut`), so it comes after them.
pub trait SlotDevice {
    // the one kind of rule that the device holds
    type Kind: Kind;

    ghost slots: { Self → List Slot };

    ghost trace: { Self → ℕ };

    // the next trace, from the last one and from what was carried out
    ghost traced: { ℕ → Event → ℕ };

    // the memory that is lent to the device, and what a write or an erase makes of it
    ghost Lent: { Type 0 };

    ghost memory: { Self → Lent };

    ghost stored: { Lent → Event → Lent };

    // the ghost names of the loans, by which a lender knows its memory again
    ghost Lenders: { Type 0 } = { List ℕ };

    ghost lenders: { Self → Lenders };

    fn count(&self) -> u16
        ensures answer { result ≡ length (slots self.now) };

    fn read(&self, slot: u16) -> Result<Option<Rule>, Refusal>
        ensures answer { result ≡ reading (slots self.now) slot };

    fn write(&mut self, slot: u16, rule: Rule) -> Result<(), Refusal>
        ensures answer { result ≡ answer (writing (length (slots self.old)) slot rule) }
        ensures slots { slots self.new ≡ after carried_out (slots self.old) (writing (length (slots self.old)) slot rule) }
        ensures trace { trace self.new ≡ after traced (trace self.old) (writing (length (slots self.old)) slot rule) }
        ensures memory { memory self.new ≡ after stored (memory self.old) (writing (length (slots self.old)) slot rule) }
        ensures same { lenders self.new ≡ lenders self.old };

    fn erase(&mut self, slot: u16) -> Result<(), Refusal>
        ensures answer { result ≡ answer (erasing (length (slots self.old)) slot) }
        ensures slots { slots self.new ≡ after carried_out (slots self.old) (erasing (length (slots self.old)) slot) }
        ensures trace { trace self.new ≡ after traced (trace self.old) (erasing (length (slots self.old)) slot) }
        ensures memory { memory self.new ≡ after stored (memory self.old) (erasing (length (slots self.old)) slot) }
        ensures same { lenders self.new ≡ lenders self.old };

    // the lowest slot whose rule matches
    fn first_match(&self, subject: u64) -> Option<u16>
        ensures answer { result ≡ first_match Self.Kind.Kind.meaning (slots self.now) subject };

    // what each device proves of its slots
    ghost lawful: { (device : Self) → SlotLaws (slots device) };
}
