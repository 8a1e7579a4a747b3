// A kind of rule: which rules and subjects are well formed, what a rule matches, and which two rules meet.
ghost use Rattle.std.specs.Prelude.{◌≡◌};
ghost use Rattle.rules.specs.Kinds.{KindMeaning, KindLaws};

use crate::words::Words;

// The tests answer for every input: what is not well formed matches and meets nothing.
pub trait Kind {
    ghost meaning: { KindMeaning };

    fn well_formed(words: Words) -> bool
        ensures { result ≡ meaning.well_formed words.a words.b };

    fn well_formed_subject(subject: u64) -> bool
        ensures { result ≡ meaning.well_formed_subject subject };

    fn matches(words: Words, subject: u64) -> bool
        ensures { result ≡ meaning.matches words.a words.b subject };

    fn meets(words: Words, other: Words) -> bool
        ensures { result ≡ meaning.meets words.a words.b other.a other.b };

    ghost lawful: { KindLaws meaning };
}
