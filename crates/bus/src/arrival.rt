// A packet arrives, or the wait runs out.
ghost use Rattle.std.specs.Prelude.{◌≡◌, ◌≤◌, ◌+◌, length};
ghost use Rattle.wire.specs.Data.{payload_of};
ghost use Rattle.bus.specs.Turn.{written, stored};
ghost use Rattle.bus.specs.Arrival.{is_data_first, is_ack, awaited, missed, timed_out, data_step, fulfilled, packet_step, StoreWithin, Ready, Awaits};

use crate::active::Load;
use crate::turn::{Says, Step};
use crate::{idle, reply, turn};
use state::{Core, RecordEvent, Stage, Wait, update};
use wire::data::Packet;
use wire::pid;
use wire::pid::Kind;

// A checked data PID, whatever follows it.
#[tactic(auto, unfolding(crate::specs::Arrival::is_data_first))]
fn is_data_first(packet: &[u8]) -> bool
    ensures { result ≡ is_data_first packet.now }
{
    idle::first_pid(packet).is_some_and(pid::is_data)
}

// ACK of one byte.
#[tactic(auto, unfolding(crate::specs::Arrival::is_ack))]
fn is_ack(packet: &[u8]) -> bool
    ensures { result ≡ is_ack packet.now }
{
    packet == [reply::byte_of(Kind::Ack)].as_slice()
}

#[tactic(auto, unfolding(crate::specs::Arrival::missed))]
fn missed(core: Core, i: usize) -> Core
    ensures { result ≡ missed core i }
{
    update::with_wait_ended(core, i, RecordEvent::WaitEnded)
}

// The stretch from `at` alone is lent on.
fn put(at: usize, payload: &[u8], memory: &mut [u8])
    requires { at + length payload.now ≤ length memory.old }
    ensures { memory.new ≡ written at payload.now memory.old }
{
    let end = at + payload.len();
    memory[at..end].copy_from_slice(payload);
}

fn store(place: Option<usize>, payload: &[u8], memory: &mut [u8])
    requires { StoreWithin place (length payload.now) (length memory.old) }
    ensures { memory.new ≡ stored place payload.now memory.old }
{
    if let Some(at) = place {
        put(at, payload, memory);
    }
}

// `Ready` is a clause of three functions: a type that holds the core and its `&mut` memory needs a clause on that reference's name in each.
#[tactic(auto, unfolding(crate::specs::Arrival::data_step), using(crate::proofs::Within::payload_short, crate::proofs::Within::kind_store_within))]
fn data_step(core: Core, i: usize, stage: Stage, memory: &mut [u8], packet: &[u8]) -> Step
    requires { Ready core (length memory.old) × Awaits core i stage }
    ensures value { result ≡ data_step core i stage packet.now }
    ensures memory { memory.new ≡ stored (data_step core i stage packet.now).store (payload_of packet.now) memory.old }
{
    let r = update::record_at(core, i);
    let Packet {
        verdict: Some(kind),
        payload,
    } = wire::data::read(packet)
    else {
        return turn::placed(core, i, turn::noting(r, RecordEvent::NotGood));
    };
    let load = Load {
        record: r,
        count: payload.len() as u32,
    };
    let turn = load.sequenced(core.speed, stage, kind);
    store(turn.store, payload, memory);
    turn::placed(core, i, turn)
}

#[tactic(auto, unfolding(crate::specs::Arrival::timed_out))]
pub(crate) fn timed_out(core: Core) -> Core
    ensures { result ≡ timed_out core }
{
    match core.wait {
        Wait::Nothing => core,
        Wait::Data { record, .. } | Wait::Acknowledge { record, .. } => missed(core, record),
    }
}

// Whether the packet is of the kind waited for.
fn is_awaited(wait: Wait, packet: &[u8]) -> bool
    ensures { result ≡ awaited wait packet.now }
{
    match wait {
        Wait::Nothing => false,
        Wait::Data { .. } => is_data_first(packet),
        Wait::Acknowledge { .. } => is_ack(packet),
    }
}

#[tactic(auto, unfolding(crate::specs::Arrival::fulfilled, crate::specs::Active::acknowledged), using(crate::proofs::Within::sent_roomy))]
fn fulfilled(core: Core, memory: &mut [u8], packet: &[u8]) -> Step
    requires { Ready core (length memory.old) }
    ensures value { result ≡ fulfilled core packet.now }
    ensures memory { memory.new ≡ stored (fulfilled core packet.now).store (payload_of packet.now) memory.old }
{
    match core.wait {
        Wait::Nothing => turn::unchanged(core, Says::Silence),
        Wait::Data { record, stage } => data_step(core, record, stage, memory, packet),
        Wait::Acknowledge {
            record,
            buffer,
            length,
        } => {
            let sent = Load {
                record: update::record_at(core, record),
                count: length,
            };
            turn::placed(core, record, sent.acknowledged(buffer))
        }
    }
}

#[tactic(auto, unfolding(crate::specs::Arrival::packet_step), using(crate::proofs::Steps::idle_stores_nothing, crate::proofs::KeepsSound::timeout_sound))]
pub(crate) fn arrives(core: Core, memory: &mut [u8], packet: &[u8]) -> Step
    requires { Ready core (length memory.old) }
    ensures value { result ≡ packet_step core packet.now }
    ensures memory { memory.new ≡ stored (packet_step core packet.now).store (payload_of packet.now) memory.old }
{
    if is_awaited(core.wait, packet) {
        return fulfilled(core, memory, packet);
    }
    idle::no_wait(timed_out(core), packet)
}
