// The active buffer, and how its descriptor moves on.
ghost use Rattle.std.specs.Prelude.{◌≡◌, ◌+◌, ◌<◌};
ghost use Rattle.state.specs.Ranges.{done_of};
ghost use Rattle.bus.specs.Active.{is_in, serves, chosen, chosen_buffer, active, left_of, place_of, grown, spent, used_event, used_up, filled, flipped_in, acknowledged, Roomy};

use crate::turn;
use crate::turn::{Says, Turn};
use state::{Descriptor, Kind, Record, RecordEvent, Toggles, range, served, update};

// OUT, SETUP and PING look on the OUT side.
#[derive(Clone, Copy, Debug, PartialEq, Eq)]
pub enum Direction {
    Out,
    In,
}

fn is_in(direction: Direction) -> bool
    ensures { result ≡ is_in direction }
{
    direction == Direction::In
}

pub(crate) fn serves(direction: Direction, kind: Kind) -> bool
    ensures { result ≡ serves direction kind }
{
    match direction {
        Direction::Out => served::serves_out(kind),
        Direction::In => served::serves_in(kind),
    }
}

#[tactic(auto, unfolding(crate::specs::Active::chosen))]
pub(crate) fn chosen(direction: Direction, r: Record) -> bool
    ensures { result ≡ chosen direction r }
{
    if range::is_control(r.endpoint.kind) {
        return is_in(direction);
    }
    if range::is_armed(update::buffer_of(r, r.next)) {
        return r.next;
    }
    !r.next
}

pub(crate) fn chosen_buffer(direction: Direction, r: Record) -> Descriptor
    ensures { result ≡ chosen_buffer direction r }
{
    update::buffer_of(r, chosen(direction, r))
}

#[tactic(auto, unfolding(crate::specs::Active::active))]
pub(crate) fn is_active(direction: Direction, r: Record) -> bool
    ensures { result ≡ active direction r }
{
    range::is_unused(chosen_buffer(direction, r))
}

pub(crate) fn left_of(d: Descriptor) -> u32
    ensures { result ≡ left_of d }
{
    match d {
        Descriptor::Unallocated => 0,
        Descriptor::Armed { length, done, .. } => length.saturating_sub(done),
    }
}

// The place of the next byte: R-11 gives a ring another one.
pub(crate) fn place_of(d: Descriptor) -> usize
    ensures { result ≡ place_of d }
{
    match d {
        Descriptor::Unallocated => 0,
        Descriptor::Armed { base, done, .. } => (base as usize) + (done as usize),
    }
}

fn grown(d: Descriptor, n: u32) -> Descriptor
    requires { done_of d + n < 4294967296 }
    ensures { result ≡ grown d n }
{
    match d {
        Descriptor::Unallocated => Descriptor::Unallocated,
        Descriptor::Armed {
            base,
            length,
            done,
            used,
        } => Descriptor::Armed {
            base,
            length,
            done: done + n,
            used,
        },
    }
}

fn spent(d: Descriptor) -> Descriptor
    ensures { result ≡ spent d }
{
    match d {
        Descriptor::Unallocated => Descriptor::Unallocated,
        Descriptor::Armed {
            base,
            length,
            done,
            ..
        } => Descriptor::Armed {
            base,
            length,
            done,
            used: true,
        },
    }
}

fn used_event(second: bool) -> RecordEvent
    ensures { result ≡ used_event second }
{
    if second {
        RecordEvent::SecondUsed
    } else {
        RecordEvent::FirstUsed
    }
}

#[tactic(auto, unfolding(crate::specs::Active::used_up))]
fn used_up(r: Record, second: bool) -> Record
    ensures { result ≡ used_up r second }
{
    let d = spent(update::buffer_of(r, second));
    Record {
        events: update::noted(r.events, used_event(second)),
        next: !second,
        ..update::with_buffer(r, second, d)
    }
}

// A record and a number of bytes that either of its buffers has room to count.
#[derive(Clone, Copy)]
pub(crate) struct Load {
    pub(crate) record: Record,
    pub(crate) count: u32,
    ghost roomy: { Roomy «record» count },
}

impl Load {
    // The record after the bytes were stored in the buffer.
    #[tactic(auto, unfolding(crate::specs::Active::filled))]
    pub(crate) fn filled(self, second: bool) -> Record
        ensures { result ≡ filled self.record second self.count }
    {
        let r = self.record;
        let d = grown(update::buffer_of(r, second), self.count);
        let q = update::with_buffer(r, second, d);
        if left_of(d) < r.endpoint.maximum {
            return used_up(q, second);
        }
        update::with_next(q, second)
    }

    // The record after the bytes that were sent from the buffer are acknowledged.
    #[tactic(auto, unfolding(crate::specs::Active::acknowledged))]
    pub(crate) fn acknowledged(self, second: bool) -> Turn
        ensures { result ≡ acknowledged self.record second self.count }
    {
        let r = self.record;
        let d = grown(update::buffer_of(r, second), self.count);
        let q = flipped_in(update::with_buffer(r, second, d));
        if left_of(d) == 0 {
            return turn::saying(used_up(q, second), Says::Silence);
        }
        turn::saying(q, Says::Silence)
    }
}

fn flipped_in(r: Record) -> Record
    ensures { result ≡ flipped_in r }
{
    Record {
        toggles: Toggles {
            in_side: !r.toggles.in_side,
            ..r.toggles
        },
        ..r
    }
}
