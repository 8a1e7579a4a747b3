// A caller that looks the same subject up, so many times.
ghost use Rattle.std.specs.Prelude.{◌≡◌, ⊤};
ghost use Rattle.rules.specs.Devices.{SameLoans};
ghost use Rattle.shifting.specs.Machine.{look_up};

use board::{Answer, Call, Caller, serve};
use rules::SlotDevice;

#[derive(Drop)]
pub struct LookUps {
    pub subject: u64,
    pub left: u16,
    pub found: u16,
}

// It holds to nothing between calls, so whoever has a device can serve it.
impl Caller for LookUps {
    ghost holds = { λ caller before. ⊤ };

    ghost waits = { λ caller before call. call ≡ look_up caller.subject };

    ghost ended = { λ caller before. ⊤ };

    ghost left = { λ caller. caller.left };

    fn next(&mut self) -> Option<Call> {
        self.left = self.left.checked_sub(1)?;
        Some(Call::LookUp(self.subject))
    }

    fn hear(&mut self, answer: Answer) {
        match answer {
            Answer::Found(Some(_)) => self.found = self.found.saturating_add(1),
            Answer::Found(None) | Answer::Refused(_) | Answer::Done | Answer::Closed(_) => (),
            Answer::Opened(_ticket)
            | Answer::Stepped(_, _ticket)
            | Answer::HandedBack(_, _ticket) => unreachable!(),
        }
    }
}

pub fn serve_look_ups<D: SlotDevice>(device: &mut D, number: u16, subject: u64, times: u16) -> u16
    ensures same { SameLoans D.SlotDevice device.old device.new }
{
    let mut caller = LookUps {
        subject,
        left: times,
        found: 0,
    };
    serve(device, number, &mut caller);
    caller.found
}
