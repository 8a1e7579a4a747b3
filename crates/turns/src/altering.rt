// Drop, change and look-up.
ghost use Rattle.std.specs.Prelude.{◌≡◌};
ghost use Rattle.rules.specs.Devices.{SameLoans};
ghost use Rattle.shifting.specs.Machine.{drop_rule, change_action, look_up, held, with_action, told};
ghost use Rattle.shifting.specs.Slots.{at, first_match};
ghost use Rattle.turns.specs.Shown.{Acts, doing, finding, standing};

use crate::numbered::slot_numbered;
use job::{Job, Request};
use placing::slot_at;
use rules::{Kind, Refusal, Rule, SlotDevice};

// The slot of the rule with this number.
fn slot_of<D: SlotDevice>(device: &D, rule: u16) -> Result<u16, Refusal>
    ensures { result ≡ standing (D.SlotDevice.slots device.now) rule }
{
    if rule == 0 {
        return Err(Refusal::Unknown);
    }
    slot_numbered(device, rule).ok_or(Refusal::Unknown)
}

// One erase.
pub fn drop_rule<D: SlotDevice>(
    device: &mut D,
    number: u16,
    job: &Job,
    rule: u16,
) -> Result<(), Refusal>
    ensures takes { Acts D.Kind.Kind.meaning D.SlotDevice number (drop_rule rule) (doing result) device.old job.now device.new job.now }
    ensures same { SameLoans D.SlotDevice device.old device.new }
{
    job.allows(number, Request::Alter)?;
    let slot = slot_of(device, rule)?;
    device.erase(slot)
}

fn with_action(rule: Rule, action: u32) -> Rule
    ensures { result ≡ with_action action rule }
{
    Rule { action, ..rule }
}

// The rule in a taken slot.
pub(crate) fn held_at<D: SlotDevice>(device: &D, slot: u16) -> Rule
    ensures { result ≡ held (at (D.SlotDevice.slots device.now) slot) }
{
    slot_at(device, slot).unwrap_or(Rule::ZERO)
}

// One write, also when the action is the same.
pub fn change_rule<D: SlotDevice>(
    device: &mut D,
    number: u16,
    job: &Job,
    rule: u16,
    action: u32,
) -> Result<(), Refusal>
    ensures takes { Acts D.Kind.Kind.meaning D.SlotDevice number (change_action rule action) (doing result) device.old job.now device.new job.now }
    ensures same { SameLoans D.SlotDevice device.old device.new }
{
    job.allows(number, Request::Alter)?;
    let slot = slot_of(device, rule)?;
    let held = held_at(device, slot);
    device.write(slot, with_action(held, action))
}

// Number and action of a rule.
fn told_of(slot: Option<Rule>) -> Option<(u16, u32)>
    ensures { result ≡ told slot }
{
    slot.map(|rule| (rule.number, rule.action))
}

fn matching<D: SlotDevice>(device: &D, subject: u64) -> Option<Rule>
    ensures { result ≡ first_match D.Kind.Kind.meaning (D.SlotDevice.slots device.now) subject }
{
    device
        .first_match(subject)
        .and_then(|slot| slot_at(device, slot))
}

// In every phase the same.
pub fn look_up_rule<D: SlotDevice>(
    device: &D,
    number: u16,
    job: &Job,
    subject: u64,
) -> Result<Option<(u16, u32)>, Refusal>
    ensures { Acts D.Kind.Kind.meaning D.SlotDevice number (look_up subject) (finding result) device.now job.now device.now job.now }
{
    if !D::Kind::well_formed_subject(subject) {
        return Err(Refusal::Misdialled);
    }
    Ok(told_of(matching(device, subject)))
}
