// Packet rules: word A is a value, word B the mask of the bits that count.
ghost use Rattle.kinds.specs.PacketRules.{packet_meaning};
ghost use Rattle.kinds.specs.PacketLaw.{packet_laws};

use rules::{Kind, Words};

pub struct Packet;

impl Kind for Packet {
    ghost meaning = { packet_meaning };

    ghost lawful = { packet_laws };

    fn well_formed(words: Words) -> bool {
        words.a & words.b == words.a
    }

    fn well_formed_subject(_subject: u64) -> bool {
        true
    }

    fn matches(words: Words, subject: u64) -> bool {
        subject & words.b == words.a
    }

    fn meets(words: Words, other: Words) -> bool {
        let both = words.b & other.b;
        Self::well_formed(words) && Self::well_formed(other) && words.a & both == other.a & both
    }
}
