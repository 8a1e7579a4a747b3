// Whoever issues calls to a board.
ghost use Rattle.std.specs.Prelude.{◌≡◌, ℕ, ◌≤◌};
ghost use Rattle.board.specs.Serving.{Past, MachineCall, Between, Waiting, Asks, Answers, Fewer, Reads, reads_nothing, one_more};

use crate::calls::{Answer, Call};

// It gives its next call, with a real ticket inside where one is needed, and hears each answer, tickets included.
pub trait Caller {
    // what it holds to between calls, of the calls made so far
    ghost holds: { Between Self };

    // what it holds to while it waits for the answer to a call
    ghost waits: { Waiting Self };

    // what it holds to at its end
    ghost ended: { Between Self };

    // a number that falls with each call
    ghost left: { Self → ℕ };

    // what it reads its calls off, which stays the same
    ghost reads: { Reads Self } = { reads_nothing };

    fn next(&mut self) -> Option<Call>
        requires { (before : Past) × holds self.old before }
        ensures asks { (before : Past) → holds self.old before → Asks waits ended self.new before result }
        ensures fewer { Fewer (left self.old) (left self.new) result }
        ensures same { reads.of self.new ≡ reads.of self.old };

    fn hear(&mut self, answer: Answer)
        requires { (before : Past) × (call : MachineCall) × waits self.old before call × Answers before call answer }
        ensures holds { (before : Past) (call : MachineCall) → waits self.old before call → Answers before call answer → holds self.new (one_more before call) }
        ensures fewer { left self.new ≤ left self.old }
        ensures same { reads.of self.new ≡ reads.of self.old };
}
