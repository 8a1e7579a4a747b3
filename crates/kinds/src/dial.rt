// Dial rules: word A is a pattern of sixteen places of four bits, the first place highest; word B is 0.
ghost use Rattle.std.specs.Prelude.{◌≡◌};
ghost use Rattle.kinds.specs.DialRules.{places, pattern_well_formed, subject_well_formed, takes, pattern_takes, wildcard, places_meet, patterns_meet, dial_meaning};
ghost use Rattle.kinds.specs.DialLaw.{dial_laws};

use crate::code::{ANY_DIGIT, DIGIT_BUT_ZERO, END, HASH, REST};
use crate::places::Places;
use rules::{Kind, Words};

pub struct Dial;

// After the first rest or end only ends follow. The first `all` stops behind it.
fn pattern_well_formed(mut places: Places) -> bool
    ensures { result ≡ pattern_well_formed places }
{
    places.all(|code| code < REST) || places.all(|code| code == END)
}

// Digits, star and hash, and from the first end on only ends.
fn subject_well_formed(subject: u64) -> bool
    ensures { result ≡ subject_well_formed (places 16 subject) }
{
    let mut symbols = Places::of(subject);
    match symbols.find(|symbol| *symbol > HASH) {
        Some(first) => first == END && symbols.all(|symbol| symbol == END),
        None => true,
    }
}

// Whether a place, other than the rest, takes a symbol.
fn takes(code: u64, symbol: u64) -> bool
    ensures { result ≡ takes code symbol }
{
    match code {
        ANY_DIGIT => matches!(symbol, 0..=9),
        DIGIT_BUT_ZERO => matches!(symbol, 1..=9),
        _ => symbol == code,
    }
}

// The places before the rest take those of the subject.
fn pattern_takes(pattern: u64, subject: u64) -> bool
    ensures { result ≡ pattern_takes (places 16 pattern) (places 16 subject) }
{
    Places::of(pattern)
        .zip(Places::of(subject))
        .find(|(code, symbol)| *code == REST || !takes(*code, *symbol))
        .is_none_or(|(code, _)| code == REST)
}

fn wildcard(code: u64) -> bool
    ensures { result ≡ wildcard code }
{
    matches!(code, ANY_DIGIT | DIGIT_BUT_ZERO)
}

// Whether two places, neither of them the rest, take some symbol in common.
fn places_meet(code: u64, other: u64) -> bool
    ensures { result ≡ places_meet code other }
{
    takes(code, other) || takes(other, code) || wildcard(code) && wildcard(other)
}

// First places first, then what remains of both.
// Kept: a rule of this project: two patterns are compared by a call on itself with the places left.
fn patterns_meet(mut pattern: Places, mut other: Places) -> bool
    ensures { result ≡ patterns_meet pattern other }
{
    match (pattern.next(), other.next()) {
        (None, None) => true,
        (Some(code), Some(other_code)) => {
            code == REST
                || other_code == REST
                || places_meet(code, other_code) && patterns_meet(pattern, other)
        }
        _ => false,
    }
}

impl Kind for Dial {
    ghost meaning = { dial_meaning };

    ghost lawful = { dial_laws };

    fn well_formed(words: Words) -> bool {
        words.b == 0 && pattern_well_formed(Places::of(words.a))
    }

    fn well_formed_subject(subject: u64) -> bool {
        subject_well_formed(subject)
    }

    fn matches(words: Words, subject: u64) -> bool {
        // Few rules take a subject, so the test of the places comes before those of the form.
        words.b == 0
            && pattern_takes(words.a, subject)
            && Self::well_formed(words)
            && Self::well_formed_subject(subject)
    }

    fn meets(words: Words, other: Words) -> bool {
        Self::well_formed(words)
            && Self::well_formed(other)
            && patterns_meet(Places::of(words.a), Places::of(other.a))
    }
}
