// Step, complete and withdraw: the writes of the open add.
ghost use Rattle.std.specs.Prelude.{◌≡◌, OnErr};
ghost use Rattle.rules.specs.Devices.{SameLoans};
ghost use Rattle.shifting.specs.Machine.{step, complete, withdraw};
ghost use Rattle.job.specs.declared.job.JobEvent.TheVariants.{Wrote};
ghost use Rattle.job.specs.Jobs.{phase_of, moved};
ghost use Rattle.turns.specs.Shown.{Acts, CarriesOutAll, counting, ticket_of, next_rule, next_event, as_events, erased_back};

use crate::altering::held_at;
use job::{Job, JobEvent, Named, Request};
use rules::{Refusal, Rule, SlotDevice};

// What the next write brings: the rule in the chain's slot before, and at the chain's first slot the new rule.
fn rule_to_write<D: SlotDevice>(device: &D, job: &Job) -> Rule
    ensures { result ≡ next_rule (D.SlotDevice.slots device.now) job.now }
{
    if job.left() > 1 {
        held_at(device, job.slot_before())
    } else {
        job.rule
    }
}

fn write_next<D: SlotDevice>(device: &mut D, job: &mut Job)
    ensures writes { CarriesOutAll D.SlotDevice device.old (as_events (next_event (D.SlotDevice.slots device.old) job.old)) device.new }
    ensures job { job.new ≡ moved (phase_of job.old) Wrote job.old }
{
    let slot = job.next_slot();
    let rule = rule_to_write(device, job);
    let _ = device.write(slot, rule);
    job.happens(JobEvent::Wrote);
}

// One write; answers the writes left.
pub fn step_add<D: SlotDevice>(
    device: &mut D,
    number: u16,
    job: &mut Job,
    named: Named,
) -> Result<u16, Refusal>
    ensures takes { Acts D.Kind.Kind.meaning D.SlotDevice number (step (ticket_of named)) (counting result) device.old job.old device.new job.new }
    ensures kept { OnErr result (job.new ≡ job.old) }
    ensures same { SameLoans D.SlotDevice device.old device.new }
{
    job.allows(number, Request::Step(named))?;
    write_next(device, job);
    Ok(job.left())
}

// The writes left; answers the announced count.
pub fn complete_add<D: SlotDevice>(
    device: &mut D,
    number: u16,
    job: &mut Job,
    named: Named,
) -> Result<u16, Refusal>
    ensures takes { Acts D.Kind.Kind.meaning D.SlotDevice number (complete (ticket_of named)) (counting result) device.old job.old device.new job.new }
    ensures kept { OnErr result (job.new ≡ job.old) }
    ensures same { SameLoans D.SlotDevice device.old device.new }
{
    job.allows(number, Request::Close(named))?;
    // Kept: a `for` over the writes left would be no plainer: it would say the number a second time, beside the job that counts them.
    while job.left() > 0 {
        write_next(device, job);
    }
    job.happens(JobEvent::Closed);
    Ok(job.chain.length)
}

fn erase_half_way<D: SlotDevice>(device: &mut D, job: &Job)
    ensures { CarriesOutAll D.SlotDevice device.old (erased_back (D.SlotDevice.slots device.old) job.now) device.new }
{
    if job.is_half_way() {
        let _ = device.erase(job.slot_written());
    }
}

// Erases the slot last written if some but not all writes were made.
pub fn withdraw_add<D: SlotDevice>(
    device: &mut D,
    number: u16,
    job: &mut Job,
    named: Named,
) -> Result<u16, Refusal>
    ensures takes { Acts D.Kind.Kind.meaning D.SlotDevice number (withdraw (ticket_of named)) (counting result) device.old job.old device.new job.new }
    ensures kept { OnErr result (job.new ≡ job.old) }
    ensures same { SameLoans D.SlotDevice device.old device.new }
{
    job.allows(number, Request::Close(named))?;
    let told = job.in_force();
    erase_half_way(device, job);
    job.happens(JobEvent::Closed);
    Ok(told)
}
