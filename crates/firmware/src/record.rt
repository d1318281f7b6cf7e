// The calls on one record.
ghost use Rattle.std.specs.Prelude.{◌≡◌, []};
ghost use Rattle.laws.specs.Lists.{all};
ghost use Rattle.state.specs.Served.{beside};
ghost use Rattle.firmware.specs.Records.{waits_on, index_tests, in_use, served_elsewhere, condition_tests, configure_tests, configured, configure_of, halt_tests, set_halt_of, clear_halt_of, record_events_of};
ghost use Rattle.refusals.specs.Refusals.{judged};

use crate::{answer, device};
use refusals::Refusal;
use state::{Condition, Core, Endpoint, Outcome, Record, Wait, range, served, update};

// Whether the core waits on the record at an index. A match, as its definition is: an arm is no constant.
pub fn waits_on(wait: Wait, index: usize) -> bool
    ensures { result ≡ waits_on wait index }
{
    match wait {
        Wait::Nothing => false,
        Wait::Data { record, .. } | Wait::Acknowledge { record, .. } => record == index,
    }
}

#[tactic(auto, unfolding(crate::specs::Records::in_use))]
fn is_in_use(core: Core, index: usize) -> bool
    ensures { result ≡ in_use core index }
{
    let r = update::record_at(core, index);
    range::is_armed(r.first) | range::is_armed(r.second) | waits_on(core.wait, index)
}

// Whether a record can stand beside each of the records.
fn is_beside_all(r: Record, records: [Record; 16]) -> bool
    ensures { result ≡ all (beside r) records }
{
    records.iter().all(|s| served::are_beside(r, *s))
}

#[tactic(auto, unfolding(crate::specs::Records::served_elsewhere))]
fn is_served_elsewhere(core: Core, index: usize, endpoint: Endpoint) -> bool
    ensures { result ≡ served_elsewhere core index endpoint }
{
    let others = update::with_record(core, index, update::off_record());
    !is_beside_all(update::fresh(Condition::Normal, endpoint), others.records)
}

// The refusals that the condition asked for adds.
fn judge_condition(
    core: Core,
    index: usize,
    condition: Condition,
    endpoint: Endpoint,
) -> Result<(), Refusal>
    ensures { result ≡ judged (condition_tests core index condition endpoint) }
{
    match condition {
        Condition::Off => Ok(()),
        Condition::Normal => {
            if !range::endpoint_fits(core.speed, endpoint) {
                return Err(Refusal::OutOfRange);
            }
            if is_served_elsewhere(core, index, endpoint) {
                return Err(Refusal::ServedElsewhere);
            }
            Ok(())
        }
        Condition::Halted => Err(Refusal::OutOfRange),
    }
}

fn judge_configure(
    core: Core,
    index: usize,
    condition: Condition,
    endpoint: Endpoint,
) -> Result<(), Refusal>
    ensures { result ≡ judged (configure_tests core index condition endpoint) }
{
    judge_index(core, index)?;
    if is_in_use(core, index) {
        return Err(Refusal::RecordInUse);
    }
    judge_condition(core, index, condition, endpoint)
}

fn configured(condition: Condition, endpoint: Endpoint) -> Record
    ensures { result ≡ configured condition endpoint }
{
    match condition {
        Condition::Off => update::off_record(),
        Condition::Normal | Condition::Halted => update::fresh(Condition::Normal, endpoint),
    }
}

#[tactic(auto, unfolding(crate::specs::Records::configure_of))]
pub fn configure(core: Core, index: usize, condition: Condition, endpoint: Endpoint) -> Outcome<u32>
    ensures { result ≡ configure_of core index condition endpoint }
{
    let judged = judge_configure(core, index, condition, endpoint);
    let next = update::with_record(core, index, configured(condition, endpoint));
    answer::settle(judged, core, next, 0)
}

fn judge_halt(core: Core, index: usize) -> Result<(), Refusal>
    ensures { result ≡ judged (halt_tests core index) }
{
    judge_index(core, index)?;
    if waits_on(core.wait, index) {
        return Err(Refusal::RecordInUse);
    }
    if !range::is_live(update::record_at(core, index).condition) {
        return Err(Refusal::RecordOff);
    }
    Ok(())
}

#[tactic(auto, unfolding(crate::specs::Records::set_halt_of))]
pub fn set_halt(core: Core, index: usize) -> Outcome<u32>
    ensures { result ≡ set_halt_of core index }
{
    let judged = judge_halt(core, index);
    let halted = update::with_condition(update::record_at(core, index), Condition::Halted);
    answer::settle(judged, core, update::with_record(core, index, halted), 0)
}

#[tactic(auto, unfolding(crate::specs::Records::clear_halt_of))]
pub fn clear_halt(core: Core, index: usize) -> Outcome<u32>
    ensures { result ≡ clear_halt_of core index }
{
    let judged = judge_halt(core, index);
    let normal = update::with_condition(update::record_at(core, index), Condition::Normal);
    let cleared = update::with_toggles(normal, update::data0());
    answer::settle(judged, core, update::with_record(core, index, cleared), 0)
}

pub(crate) fn judge_index(core: Core, index: usize) -> Result<(), Refusal>
    ensures { result ≡ judged (index_tests core index []) }
{
    device::judge_sound(core)?;
    if 15 < index {
        return Err(Refusal::NoSuchRecord);
    }
    Ok(())
}

// Returns the record's events as a number and clears them.
#[tactic(auto, unfolding(crate::specs::Records::record_events_of))]
pub fn record_events(core: Core, index: usize) -> Outcome<u32>
    ensures { result ≡ record_events_of core index }
{
    let judged = judge_index(core, index);
    let r = update::record_at(core, index);
    let read = update::with_events(r, update::no_events());
    answer::settle(
        judged,
        core,
        update::with_record(core, index, read),
        u32::from(r.events),
    )
}
