// What a packet brings about: in the record that it is for, and in the core.
ghost use Rattle.std.specs.Prelude.{◌≡◌};
ghost use Rattle.bus.specs.Turn.{saying, noting, waiting, placed, unchanged, signalling};

use state::{Core, Record, RecordEvent, SystemEvent, Wait, update};

// What is said on the bus; a frame is not said there, the packet is answered as SOF.
#[derive(Clone, Copy)]
pub enum Says {
    Silence,
    Ack,
    Nak,
    Stall,
    Nyet,
    Data {
        toggle: bool,
        from: usize,
        count: usize,
    },
    Frame(u16),
}

#[derive(Clone, Copy)]
pub struct Turn {
    pub after: Record,
    pub wait: Wait,
    // The place that the payload is stored at, if any.
    pub store: Option<usize>,
    pub says: Says,
}

#[derive(Clone, Copy)]
pub struct Step {
    pub core: Core,
    pub store: Option<usize>,
    pub says: Says,
}

pub(crate) fn saying(r: Record, says: Says) -> Turn
    ensures { result ≡ saying r says }
{
    Turn {
        after: r,
        wait: Wait::Nothing,
        store: None,
        says,
    }
}

pub(crate) fn noting(r: Record, event: RecordEvent) -> Turn
    ensures { result ≡ noting r event }
{
    saying(
        Record {
            events: update::noted(r.events, event),
            ..r
        },
        Says::Silence,
    )
}

pub(crate) fn waiting(r: Record, wait: Wait) -> Turn
    ensures { result ≡ waiting r wait }
{
    Turn {
        after: r,
        wait,
        store: None,
        says: Says::Silence,
    }
}

pub(crate) fn placed(core: Core, i: usize, turn: Turn) -> Step
    ensures { result ≡ placed core i turn }
{
    Step {
        core: update::with_record_and_wait(core, i, turn.after, turn.wait),
        store: turn.store,
        says: turn.says,
    }
}

pub(crate) fn unchanged(core: Core, says: Says) -> Step
    ensures { result ≡ unchanged core says }
{
    Step {
        core,
        store: None,
        says,
    }
}

pub(crate) fn signalling(core: Core, event: SystemEvent) -> Step
    ensures { result ≡ signalling core event }
{
    let events = update::signalled(core.events, event);
    unchanged(update::with_system_events(core, events), Says::Silence)
}
