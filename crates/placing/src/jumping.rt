// The jump rule: the chain of slots that makes room for a new rule.
ghost use Rattle.std.specs.Prelude.{◌≡◌, ◌<◌, ◌≤◌, Ok, OnErr};
ghost use Rattle.shifting.specs.Chains.{jump};
ghost use Rattle.shifting.specs.Slots.{is_empty, usable, reach, jump_chain};
ghost use Rattle.placing.specs.Placing.{placing, Names};

use crate::chain::Chain;
use crate::clash::{farthest_of, reach_of};
use crate::reading::usable_slots;
use crate::scanning::first_passing;
use crate::slot_tests::is_empty;
use crate::span::{is_crossed, is_full};
use crate::survey::look_over;
use rules::{Refusal, Rule, SlotDevice};

// The chain that starts between two slots, at most one turn for each usable slot.
fn jump_from<D: SlotDevice>(device: &D, from: u16, to: u16, chain: &mut Chain)
    requires { (from ≤ 480) × (to < 480) }
    ensures { Names chain.new (jump (is_empty (D.SlotDevice.slots device.now)) (reach D.Kind.Kind.meaning (D.SlotDevice.slots device.now)) (usable (D.SlotDevice.slots device.now)) from to) }
{
    let mut low = from;
    let mut high = to;
    chain.length = 0;
    for _turn in 0..usable_slots(device) {
        if let Some(empty) = first_passing(device, low, high + 1, is_empty) {
            chain.push(empty);
            break;
        }
        let taken = farthest_of(device, low, high);
        chain.push(taken);
        low = taken + 1;
        high = reach_of(device, taken);
    }
}

// The chain for a new rule, or why it has no place; then the chain stays as it was. The rule itself is not looked at: its words and number are its caller's care.
pub fn find_chain<D: SlotDevice>(device: &D, new: Rule, chain: &mut Chain) -> Result<(), Refusal>
    ensures answer { result ≡ placing D.Kind.Kind.meaning (D.SlotDevice.slots device.now) new }
    ensures chain { result ≡ Ok tt → Names chain.new (jump_chain D.Kind.Kind.meaning (D.SlotDevice.slots device.now) new) }
    ensures kept { OnErr result (chain.new ≡ chain.old) }
{
    let survey = look_over(device, new);
    if survey.tied {
        return Err(Refusal::Tied);
    }
    let (from, to) = survey.span;
    if is_crossed(from, to) {
        return Err(Refusal::Crossed);
    }
    if is_full(device, from) {
        return Err(Refusal::NoSlot);
    }
    jump_from(device, from, to, chain);
    Ok(())
}
