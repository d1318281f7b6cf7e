// The event bits as numbers, and back. A record's events and the system's stand twice: each body names its own
// fields, and each conversion its own definition.
ghost use Rattle.std.specs.Prelude.{◌≡◌, cond, ◌≤◌};
ghost use Rattle.state.specs.Events.{bit, system_bit, record_bits, system_bits, weighs, record_events_of, system_events_of, record_events_in, system_events_in};

use crate::{RecordEvent, RecordEvents, SystemEvent, SystemEvents};

// A number that is no sum of the named events' bits.
#[derive(Clone, Copy, Debug, PartialEq, Eq)]
pub struct Unnamed;

// The number of an event's bit, which is its variant's.
impl From<RecordEvent> for u32 {
    ghost from_gives = { λ event n. n ≡ bit event };

    fn from(event: RecordEvent) -> u32 {
        event as u32
    }
}

impl From<SystemEvent> for u32 {
    ghost from_gives = { λ event n. n ≡ system_bit event };

    fn from(event: SystemEvent) -> u32 {
        event as u32
    }
}

// The weight of an event's bit where the event is set.
fn weigh(set: bool, weight: u32) -> u32
    ensures value { result ≡ cond set weight 0 }
    ensures most { result ≤ weight }
{
    if set { weight } else { 0 }
}

// Whether the number has the bit of this weight.
fn has(n: u32, weight: u32) -> bool
    ensures { result ≡ weighs n weight }
{
    if weight == 0 {
        return false;
    }
    n / weight % 2 == 1
}

#[tactic(auto, unfolding(crate::specs::Events::record_bits))]
impl From<RecordEvents> for u32 {
    ghost from_gives = { λ e n. n ≡ record_bits e };

    fn from(e: RecordEvents) -> u32 {
        weigh(e.wait_ended, 1)
            + weigh(e.not_good, 2)
            + weigh(e.out_of_place, 4)
            + weigh(e.first_used, 8)
            + weigh(e.second_used, 16)
            + weigh(e.not_taken, 32)
            + weigh(e.short_packet, 64)
    }
}

#[tactic(auto, unfolding(crate::specs::Events::system_bits))]
impl From<SystemEvents> for u32 {
    ghost from_gives = { λ e n. n ≡ system_bits e };

    fn from(e: SystemEvents) -> u32 {
        weigh(e.bad_token, 1048576)
            + weigh(e.bad_pid, 2097152)
            + weigh(e.unserved, 4194304)
            + weigh(e.bus_reset, 268435456)
    }
}

// The events whose bits a number has, whatever other bits it has: it cannot fail, and docs/STATEMENTS.md names it.
pub fn record_events(n: u32) -> RecordEvents
    ensures { result ≡ record_events_of n }
{
    RecordEvents {
        wait_ended: has(n, 1),
        not_good: has(n, 2),
        out_of_place: has(n, 4),
        first_used: has(n, 8),
        second_used: has(n, 16),
        not_taken: has(n, 32),
        short_packet: has(n, 64),
    }
}

// The same of the system's, beside it since each body names its own fields.
pub fn system_events(n: u32) -> SystemEvents
    ensures { result ≡ system_events_of n }
{
    SystemEvents {
        bad_token: has(n, 1048576),
        bad_pid: has(n, 2097152),
        unserved: has(n, 4194304),
        bus_reset: has(n, 268435456),
    }
}

impl TryFrom<u32> for RecordEvents {
    type Error = Unnamed;

    ghost try_from_gives = { λ n r. r ≡ record_events_in n };

    fn try_from(n: u32) -> Result<RecordEvents, Unnamed> {
        let noted = record_events(n);
        if u32::from(noted) != n {
            return Err(Unnamed);
        }
        Ok(noted)
    }
}

impl TryFrom<u32> for SystemEvents {
    type Error = Unnamed;

    ghost try_from_gives = { λ n r. r ≡ system_events_in n };

    fn try_from(n: u32) -> Result<SystemEvents, Unnamed> {
        let signalled = system_events(n);
        if u32::from(signalled) != n {
            return Err(Unnamed);
        }
        Ok(signalled)
    }
}
