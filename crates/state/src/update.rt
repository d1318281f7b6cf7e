// The updates of `specs/Update.antt`: with it and `is_zero`, the places that list the fields of a record.
// Core and index stand one by one, as `record_at` and `with_record` are defined.
ghost use Rattle.std.specs.Prelude.{◌≡◌};
ghost use Rattle.state.specs.declared.Wait.TheVariants.{Nothing};
ghost use Rattle.state.specs.Update.{no_events, no_system_events, data0, fresh, off_record, with_condition, with_next, with_events, with_toggles, buffer_of, with_buffer, noted, signalled, started, with_address, with_system_events, with_wait, record_at, with_record};

use crate::{
    Condition, Core, Descriptor, Endpoint, Kind, Record, RecordEvent, RecordEvents, Speed,
    SystemEvent, SystemEvents, Toggles, Transfer, Wait,
};

pub fn no_events() -> RecordEvents
    ensures { result ≡ no_events }
{
    RecordEvents {
        wait_ended: false,
        not_good: false,
        out_of_place: false,
        first_used: false,
        second_used: false,
        not_taken: false,
        short_packet: false,
    }
}

pub fn no_system_events() -> SystemEvents
    ensures { result ≡ no_system_events }
{
    SystemEvents {
        bad_token: false,
        bad_pid: false,
        unserved: false,
        bus_reset: false,
    }
}

pub fn data0() -> Toggles
    ensures { result ≡ data0 }
{
    Toggles {
        out_side: false,
        in_side: false,
    }
}

pub fn fresh(condition: Condition, endpoint: Endpoint) -> Record
    ensures { result ≡ fresh condition endpoint }
{
    Record {
        condition,
        endpoint,
        next: false,
        events: no_events(),
        toggles: data0(),
        first: Descriptor::Unallocated,
        second: Descriptor::Unallocated,
    }
}

pub fn off_record() -> Record
    ensures { result ≡ off_record }
{
    fresh(
        Condition::Off,
        Endpoint {
            kind: Kind::Control,
            transfer: Transfer::Control,
            number: 0,
            maximum: 0,
        },
    )
}

pub fn with_condition(r: Record, condition: Condition) -> Record
    ensures { result ≡ with_condition r condition }
{
    Record { condition, ..r }
}

pub fn with_next(r: Record, next: bool) -> Record
    ensures { result ≡ with_next r next }
{
    Record { next, ..r }
}

pub fn with_events(r: Record, events: RecordEvents) -> Record
    ensures { result ≡ with_events r events }
{
    Record { events, ..r }
}

pub fn with_toggles(r: Record, toggles: Toggles) -> Record
    ensures { result ≡ with_toggles r toggles }
{
    Record { toggles, ..r }
}

// Buffer 0, or 1 where `second`.
pub fn buffer_of(r: Record, second: bool) -> Descriptor
    ensures { result ≡ buffer_of r second }
{
    if second { r.second } else { r.first }
}

pub fn with_buffer(r: Record, second: bool, d: Descriptor) -> Record
    ensures { result ≡ with_buffer r second d }
{
    if second {
        Record { second: d, ..r }
    } else {
        Record { first: d, ..r }
    }
}

// Beside `signalled`: each body names its own fields.
pub fn noted(e: RecordEvents, event: RecordEvent) -> RecordEvents
    ensures { result ≡ noted e event }
{
    match event {
        RecordEvent::WaitEnded => RecordEvents {
            wait_ended: true,
            ..e
        },
        RecordEvent::NotGood => RecordEvents {
            not_good: true,
            ..e
        },
        RecordEvent::OutOfPlace => RecordEvents {
            out_of_place: true,
            ..e
        },
        RecordEvent::FirstUsed => RecordEvents {
            first_used: true,
            ..e
        },
        RecordEvent::SecondUsed => RecordEvents {
            second_used: true,
            ..e
        },
        RecordEvent::NotTaken => RecordEvents {
            not_taken: true,
            ..e
        },
        RecordEvent::ShortPacket => RecordEvents {
            short_packet: true,
            ..e
        },
    }
}

pub fn signalled(e: SystemEvents, event: SystemEvent) -> SystemEvents
    ensures { result ≡ signalled e event }
{
    match event {
        SystemEvent::BadToken => SystemEvents {
            bad_token: true,
            ..e
        },
        SystemEvent::BadPid => SystemEvents { bad_pid: true, ..e },
        SystemEvent::Unserved => SystemEvents {
            unserved: true,
            ..e
        },
        SystemEvent::BusReset => SystemEvents {
            bus_reset: true,
            ..e
        },
    }
}

// The record at `i`; above 15 the off record.
pub fn record_at(core: Core, i: usize) -> Record
    ensures { result ≡ record_at core i }
{
    if i < 16 {
        return core.records[i];
    }
    off_record()
}

// The core with the record at `i` given anew; there is none above 15.
pub fn with_record(core: Core, i: usize, r: Record) -> Core
    ensures { result ≡ with_record core i r }
{
    let mut next = core;
    if i < 16 {
        next.records[i] = r;
    }
    next
}

pub fn with_system_events(core: Core, events: SystemEvents) -> Core
    ensures { result ≡ with_system_events core events }
{
    Core { events, ..core }
}

// In place: by `..core` a loop of sound tests took 263 instructions a turn more, of 1,275.
pub fn with_address(core: Core, address: u32) -> Core
    ensures { result ≡ with_address core address }
{
    let mut next = core;
    next.address = address;
    next
}

// The state at the start: address 0, all records off, no wait, no events.
pub fn started(memory_size: u32, speed: Speed) -> Core
    ensures { result ≡ started memory_size speed }
{
    Core {
        memory_size,
        address: 0,
        speed,
        events: no_system_events(),
        records: [off_record(); 16],
        wait: Wait::Nothing,
    }
}

// No call of the core needs it alone: the call script forces a wait by it.
pub fn with_wait(core: Core, wait: Wait) -> Core
    ensures { result ≡ with_wait core wait }
{
    Core { wait, ..core }
}

// Both at once and in place, as below: by `..core` an OUT token took 1,078 instructions more, of 4,453.
pub fn with_record_and_wait(core: Core, i: usize, r: Record, wait: Wait) -> Core
    ensures { result ≡ with_wait (with_record core i r) wait }
{
    let mut next = core;
    if i < 16 {
        next.records[i] = r;
    }
    next.wait = wait;
    next
}

// The event is noted where the record stands, and no wait is left. In place, as above.
pub fn with_wait_ended(core: Core, i: usize, event: RecordEvent) -> Core
    ensures { result ≡ with_wait (with_record core i (with_events (record_at core i) (noted (record_at core i).events event))) Nothing }
{
    let mut next = core;
    if i < 16 {
        next.records[i].events = noted(next.records[i].events, event);
    }
    next.wait = Wait::Nothing;
    next
}
