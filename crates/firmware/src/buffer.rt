// The calls on one buffer.
ghost use Rattle.std.specs.Prelude.{◌≡◌};
ghost use Rattle.firmware.specs.Buffers.{shares_byte, arm_tests, arm_of, disarm_tests, disarm_of};
ghost use Rattle.refusals.specs.Refusals.{judged};

use crate::{answer, record};
use refusals::Refusal;
use state::{Core, Descriptor, Outcome, range, spans, update};

#[tactic(auto, unfolding(crate::specs::Buffers::shares_byte))]
fn shares_byte(core: Core, index: usize, second: bool, base: u32, length: u32) -> bool
    ensures { result ≡ shares_byte core index second base length }
{
    let r = update::record_at(core, index);
    let vacant = update::with_buffer(r, second, Descriptor::Unallocated);
    let others = update::with_record(core, index, vacant);
    !spans::is_clear(base, length, others.records)
}

fn judge_arm(core: Core, index: usize, buffer: u32, base: u32, length: u32) -> Result<(), Refusal>
    ensures { result ≡ judged (arm_tests core index buffer base length) }
{
    record::judge_index(core, index)?;
    let r = update::record_at(core, index);
    let second = buffer == 1;
    if !range::is_live(r.condition) {
        return Err(Refusal::RecordOff);
    }
    if 1 < buffer {
        return Err(Refusal::NoSuchBuffer);
    }
    if range::is_unused(update::buffer_of(r, second)) {
        return Err(Refusal::NotUsedYet);
    }
    if range::is_misplaced(
        core.memory_size,
        range::on_out_side(r.endpoint.kind, second),
        r.endpoint.maximum,
        base,
        length,
    ) {
        return Err(Refusal::Misplaced);
    }
    if shares_byte(core, index, second, base, length) {
        return Err(Refusal::SharesByte);
    }
    Ok(())
}

#[tactic(auto, unfolding(crate::specs::Buffers::arm_of))]
pub fn arm(core: Core, index: usize, buffer: u32, base: u32, length: u32) -> Outcome<u32>
    ensures { result ≡ arm_of core index buffer base length }
{
    let judged = judge_arm(core, index, buffer, base, length);
    let armed = Descriptor::Armed {
        base,
        length,
        done: 0,
        used: false,
    };
    let next = update::with_buffer(update::record_at(core, index), buffer == 1, armed);
    answer::settle(judged, core, update::with_record(core, index, next), 0)
}

fn judge_disarm(core: Core, index: usize, buffer: u32) -> Result<(), Refusal>
    ensures { result ≡ judged (disarm_tests core index buffer) }
{
    record::judge_index(core, index)?;
    let r = update::record_at(core, index);
    if record::waits_on(core.wait, index) {
        return Err(Refusal::RecordInUse);
    }
    if !range::is_live(r.condition) {
        return Err(Refusal::RecordOff);
    }
    if 1 < buffer {
        return Err(Refusal::NoSuchBuffer);
    }
    if !range::is_armed(update::buffer_of(r, buffer == 1)) {
        return Err(Refusal::NothingArmed);
    }
    Ok(())
}

// Returns the done count.
#[tactic(auto, unfolding(crate::specs::Buffers::disarm_of))]
pub fn disarm(core: Core, index: usize, buffer: u32) -> Outcome<u32>
    ensures { result ≡ disarm_of core index buffer }
{
    let judged = judge_disarm(core, index, buffer);
    let second = buffer == 1;
    let r = update::record_at(core, index);
    let next = update::with_buffer(r, second, Descriptor::Unallocated);
    let done = range::done_of(update::buffer_of(r, second));
    answer::settle(judged, core, update::with_record(core, index, next), done)
}
