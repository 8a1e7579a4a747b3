// The first and the last slot that pass a test of what stands in them.
ghost use Rattle.placing.specs.Passing.{FirstPassing, PastLast};

use crate::reading::slot_at;
use rules::{Rule, SlotDevice};

// The first slot from `low` on and before `end` that passes. A test that is a function without a `requires` may always be called.
pub fn first_passing<D: SlotDevice, F: Fn(Option<Rule>) -> bool>(
    device: &D,
    low: u16,
    end: u16,
    passes: F,
) -> Option<u16>
    requires { F.IsAlwaysCallable passes }
    ensures { FirstPassing (F.post passes) (D.SlotDevice.slots device.now) low end result }
{
    (low..end).find(|slot| passes(slot_at(device, *slot)))
}

// One past the last slot before `end` that passes, or 0.
pub fn past_last_passing<D: SlotDevice, F: Fn(Option<Rule>) -> bool>(
    device: &D,
    end: u16,
    passes: F,
) -> u16
    requires { F.IsAlwaysCallable passes }
    ensures { PastLast (F.post passes) (D.SlotDevice.slots device.now) end result }
{
    for last in (0..end).rev() {
        if passes(slot_at(device, last)) {
            return last + 1;
        }
    }
    0
}
