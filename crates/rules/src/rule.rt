// A rule as callers and devices hold it.
ghost use Rattle.std.specs.Prelude.{◌≡◌};
ghost use Rattle.rules.specs.Slots.{in_slot};

use crate::kind::Kind;
use crate::words::Words;

// Number 0 marks an empty slot. A larger priority wins.
// Kept: the C interface has a record for each slot, so number 0 stands there for none; `in_slot` tells them apart.
#[derive(Clone, Copy, PartialEq, Eq, Debug)]
#[repr(C)]
pub struct Rule {
    pub number: u16,
    pub priority: u16,
    pub action: u32,
    pub word_a: u64,
    pub word_b: u64,
}

impl Rule {
    // A record of an empty slot.
    pub const ZERO: Rule = Rule {
        number: 0,
        priority: 0,
        action: 0,
        word_a: 0,
        word_b: 0,
    };

    // The slot that a record stands for: number 0 is an empty one, whatever else the record holds.
    pub fn in_slot(self) -> Option<Rule>
        ensures { result ≡ in_slot self }
    {
        (self.number != 0).then_some(self)
    }

    // What the rule's kind reads of it.
    pub fn words(self) -> Words
        ensures { result ≡ record { a = self.word_a; b = self.word_b } }
    {
        Words {
            a: self.word_a,
            b: self.word_b,
        }
    }

    // Two rules meet whichever of them is named first.
    pub fn meets<K: Kind>(self, other: Rule) -> bool
        ensures answer { result ≡ K.Kind.meaning.meets self.word_a self.word_b other.word_a other.word_b }
        ensures symmetric { result ≡ K.Kind.meaning.meets other.word_a other.word_b self.word_a self.word_b }
    {
        K::meets(self.words(), other.words())
    }
}
