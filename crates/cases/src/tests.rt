// The corners of both kinds through the code, and a kind in which nothing matches.
ghost use Rattle.std.specs.Prelude.{true, false};
ghost use Rattle.std.proofs.Common.{rules};

use kinds::{Dial, Packet};
use rules::{Kind, Rule, Words};

// Two dial patterns, and whether they meet.
const DIAL_MEETS: [(u64, u64, bool); 9] = [
    (0x9EFF_FFFF_FFFF_FFFF, 0x90FF_FFFF_FFFF_FFFF, true),
    (0x9FFF_FFFF_FFFF_FFFF, 0x90FF_FFFF_FFFF_FFFF, false),
    (0xCFFF_FFFF_FFFF_FFFF, 0xAFFF_FFFF_FFFF_FFFF, false),
    (0xDFFF_FFFF_FFFF_FFFF, 0xCFFF_FFFF_FFFF_FFFF, true),
    (0xDFFF_FFFF_FFFF_FFFF, 0x0FFF_FFFF_FFFF_FFFF, false),
    (0xEFFF_FFFF_FFFF_FFFF, 0xFFFF_FFFF_FFFF_FFFF, true),
    (0xDEFF_FFFF_FFFF_FFFF, 0xFFFF_FFFF_FFFF_FFFF, false),
    (0xCFFF_FFFF_FFFF_FFFF, 0xFFFF_FFFF_FFFF_FFFF, false),
    (0, 0xF, false),
];

// A dial pattern, a subject, and whether they match.
const DIAL_MATCHES: [(u64, u64, bool); 5] = [
    (0xEFFF_FFFF_FFFF_FFFF, 0xBFFF_FFFF_FFFF_FFFF, true),
    (0, 0, true),
    (0, 0xFFFF_FFFF_FFFF_FFFF, false),
    (0xE, 0, true),
    (0xE, 0xF, true),
];

// Words A and B of a dial rule, and whether it is well formed.
const DIAL_WELL_FORMED: [(u64, u64, bool); 5] = [
    (0, 0, true),
    (0xEEFF_FFFF_FFFF_FFFF, 0, false),
    (0xF0FF_FFFF_FFFF_FFFF, 0, false),
    (0xFEFF_FFFF_FFFF_FFFF, 0, false),
    (0x9FFF_FFFF_FFFF_FFFF, 1, false),
];

// The words of a dial rule with this pattern.
fn dial_words(pattern: u64) -> Words {
    Words { a: pattern, b: 0 }
}

#[test]
fn dial_corners(rt: HostRuntime) {
    for (pattern, other, answer) in DIAL_MEETS {
        assert_eq!(rt; Dial::meets(dial_words(pattern), dial_words(other)), answer);
    }
    for (pattern, subject, answer) in DIAL_MATCHES {
        assert_eq!(rt; Dial::matches(dial_words(pattern), subject), answer);
    }
    for (a, b, answer) in DIAL_WELL_FORMED {
        assert_eq!(rt; Dial::well_formed(Words { a, b }), answer);
    }
    assert!(rt; !Dial::well_formed_subject(0xCFFF_FFFF_FFFF_FFFF));
}

#[test]
fn packet_corners(rt: HostRuntime) {
    let words = Words { a: 0x10, b: 0xF0 };
    assert!(rt; Packet::meets(words, Words { a: 0x01, b: 0x0F }));
    assert!(rt; !Packet::meets(words, Words { a: 0x20, b: 0x30 }));
    assert!(rt; !Packet::well_formed(Words { a: 0x11, b: 0x10 }));
    assert!(rt; Packet::matches(words, 0x1F));
}

fn rule(word_a: u64, word_b: u64) -> Rule {
    Rule {
        number: 1,
        priority: 0,
        action: 0,
        word_a,
        word_b,
    }
}

// Nothing matches, so nothing meets.
struct NoMatch;

impl Kind for NoMatch {
    ghost meaning = { record { well_formed = λ a b. true; well_formed_subject = λ subject. true; matches = λ a b subject. false; meets = λ a b other_a other_b. false } };

    ghost lawful = { Prim.search rules };

    fn well_formed(_words: Words) -> bool {
        true
    }

    fn well_formed_subject(_subject: u64) -> bool {
        true
    }

    fn matches(_words: Words, _subject: u64) -> bool {
        false
    }

    fn meets(_words: Words, _other: Words) -> bool {
        false
    }
}

#[test]
fn rules_of_any_kind(rt: HostRuntime) {
    assert!(rt; rule(0x10, 0xF0).meets::<Packet>(rule(0x10, 0xF0)));
    assert!(rt; rule(0, 0).meets::<Dial>(rule(0, 0)));
    assert!(rt; !rule(0, 0).meets::<NoMatch>(rule(0, 0)));
}
