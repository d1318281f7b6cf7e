// Whether the state is sound: document 01, "State". Every call of the core makes this test.
ghost use Rattle.std.specs.Prelude.{◌≡◌, ◌&&◌, leb};
ghost use Rattle.state.specs.Update.{record_at};
ghost use Rattle.state.specs.Sound.{stage_fits, sends, wait_record, data_fits, acknowledge_fits, wait_fits, is_sound};

use crate::fixed_list::FixedList;
use crate::served::End;
use crate::spans::Span;
use crate::{Core, Descriptor, Kind, Record, Stage, Wait, apart, range, served, spans, update};

fn stage_fits(stage: Stage, kind: Kind) -> bool
    ensures { result ≡ stage_fits stage kind }
{
    match stage {
        Stage::Setup => range::is_control(kind),
        Stage::Out => true,
    }
}

fn data_fits(r: Record, stage: Stage) -> bool
    ensures { result ≡ data_fits r stage }
{
    let kind = r.endpoint.kind;
    range::is_live(r.condition) & served::serves_out(kind) & stage_fits(stage, kind)
}

// Left = length - done; an unsound done above the length leaves nothing.
fn is_sent(maximum: u32, sent: u32, d: Descriptor) -> bool
    ensures { result ≡ sends maximum sent d }
{
    matches!(
        d,
        Descriptor::Armed { length, done, used: false, .. }
            if sent == maximum.min(length.saturating_sub(done))
    )
}

fn acknowledge_fits(r: Record, buffer: bool, sent: u32) -> bool
    ensures { result ≡ acknowledge_fits r buffer sent }
{
    let kind = r.endpoint.kind;
    range::is_live(r.condition)
        & served::serves_in(kind)
        & (buffer == (range::is_control(kind) | r.next))
        & is_sent(r.endpoint.maximum, sent, update::buffer_of(r, buffer))
}

fn wait_fits(core: &Core) -> bool
    ensures { result ≡ (leb (wait_record core.now.wait) 15 && wait_fits (record_at core.now (wait_record core.now.wait)) core.now.wait) }
{
    match core.wait {
        Wait::Nothing => true,
        Wait::Data { record, stage } => record < 16 && data_fits(core.records[record], stage),
        Wait::Acknowledge {
            record,
            buffer,
            length,
        } => record < 16 && acknowledge_fits(core.records[record], buffer, length),
    }
}

// One walk over the records tests each, and gathers what the live ones serve and the armed spans; the pairs of those are tested after it.
#[tactic(auto, unfolding(crate::specs::Sound::is_sound))]
pub fn is_sound(core: Core) -> bool
    ensures { result ≡ is_sound core }
{
    if 131072 < core.memory_size || 127 < core.address {
        return false;
    }
    let mut ends = FixedList::<End, 16>::new(End {
        number: 0,
        kind: Kind::Control,
    });
    let mut spans = FixedList::<Span, 32>::new(Span { base: 0, end: 0 });
    for r in &core.records {
        if range::is_live(r.condition) {
            if !range::live_fits(core.memory_size, core.speed, *r) {
                return false;
            }
            ends.push(served::end_of(r.endpoint));
            spans.extend(spans::span_of(r.first));
            spans.extend(spans::span_of(r.second));
        } else if !range::is_zero(*r) {
            return false;
        }
    }
    apart::all_apart(ends.as_slice()) && apart::all_apart(spans.as_slice()) && wait_fits(&core)
}
