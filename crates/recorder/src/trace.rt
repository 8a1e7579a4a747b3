// The trace of a recorder.
ghost use Rattle.std.specs.Prelude.{◌≡◌};
ghost use Rattle.recorder.specs.Recorded.{event_code, recorded};

use rules::Event;

fn event_code(event: Event) -> u16
    ensures { result ≡ event_code event }
{
    match event {
        Event::Write(slot, rule) => slot % 256 * 256 + rule.number % 256,
        Event::Erase(slot) => slot % 256 * 256,
    }
}

pub(crate) fn recorded(trace: u128, event: Event) -> u128
    ensures { result ≡ recorded trace event }
{
    trace % 0x1_0000_0000_0000_0000_0000_0000_0000 * 0x1_0000 + u128::from(event_code(event))
}
