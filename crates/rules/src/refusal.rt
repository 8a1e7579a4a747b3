// Why a call, a device or the order reader refuses.
ghost use Rattle.std.specs.Prelude.{◌≡◌, Some};
ghost use Rattle.rules.specs.Refusals.{number, word};

use std::fmt;

#[derive(Clone, Copy, PartialEq, Eq, Debug)]
pub enum Refusal {
    Busy = 1,
    Mangled = 2,
    Known = 3,
    Tied = 4,
    Crossed = 5,
    NoSlot = 6,
    Unknown = 7,
    Misdialled = 8,
    Foreign = 9,
    RunOut = 10,
    OffTheTable = 11,
    Unmarked = 12,
    StrangeLetter = 13,
    CutShort = 14,
}

impl Refusal {
    // Of several refusals that apply, the one with the smallest number is given.
    pub fn number(self) -> u8
        ensures { result ≡ number self }
    {
        // Kept: From<Refusal> for u8 would be no plainer: the number is asked for by that name everywhere.
        self as u8
    }

    pub fn word(self) -> &'static str
        ensures { result.now ≡ word self }
    {
        match self {
            Refusal::Busy => "busy",
            Refusal::Mangled => "mangled",
            Refusal::Known => "known",
            Refusal::Tied => "tied",
            Refusal::Crossed => "crossed",
            Refusal::NoSlot => "no slot",
            Refusal::Unknown => "unknown",
            Refusal::Misdialled => "misdialled",
            Refusal::Foreign => "foreign",
            Refusal::RunOut => "run out",
            Refusal::OffTheTable => "off the table",
            Refusal::Unmarked => "unmarked",
            Refusal::StrangeLetter => "strange letter",
            Refusal::CutShort => "cut short",
        }
    }
}

impl fmt::Display for Refusal {
    ghost output = { λ refusal. Some (word refusal) };

    fn fmt<W: fmt::Write>(&self, f: &mut fmt::Formatter<W>) -> fmt::Result {
        f.write_str(self.word())
    }
}
