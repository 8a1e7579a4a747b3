// The worked cases, as one list that is proved. The tests put the same questions to the code.
#![tactic(auto)]

ghost use Rattle.std.specs.Prelude.{◌≡◌, length};
ghost use Rattle.cases.specs.Cases.{WorkedCases, worked_cases};
ghost use Rattle.cases.specs.Failures.{Failures};

// How many cases there are; that each of them holds is the proof.
pub fn worked_cases() -> u8
    ensures count { result ≡ length worked_cases }
    ensures hold { WorkedCases }
{
    42
}

// What is wrong is refuted: a table out of order, a chain past a reach, a longer chain, writes that start at the first slot.
pub fn failures_stand()
    ensures { Failures }
{}

#[cfg(test)]
mod tests;
