// Packets played on the core, one after another.
ghost use Rattle.std.specs.Prelude.{◌≡◌, get_or};
ghost use Rattle.exported.specs.Traffic.{number_of, summed_of, played_once, played_times, waited, beside, unanswered};

use crate::scene;
use bus::Answer;
use refusals::Refusal;
use state::Core;

// The core, and the sum of what it answered so far.
#[derive(Clone, Copy)]
pub struct Played {
    pub core: Core,
    pub sum: u64,
}

// The PID byte of a reply.
fn first_of(reply: &[u8]) -> u8
    ensures { result ≡ get_or reply.now 0 0 }
{
    reply.first().copied().unwrap_or(0)
}

// An answer as one number.
fn number_of(answer: Result<Answer, Refusal>, reply: &[u8]) -> u32
    ensures { result ≡ number_of answer reply.now }
{
    match answer {
        Ok(Answer::Silent) => 1,
        Ok(Answer::Reply(n)) => 0x100_0000 + (n % 65536) as u32 * 256 + first_of(reply) as u32,
        Ok(Answer::Sof(frame)) => 0x200_0000 + frame as u32,
        Err(refusal) => 0x300_0000 + u32::from(refusal),
    }
}

// The order of the answers counts.
fn summed(sum: u64, answer: Result<Answer, Refusal>, reply: &[u8]) -> u64
    ensures { result ≡ summed_of sum answer reply.now }
{
    sum % 0x1_0000_0000 * 31 + number_of(answer, reply) as u64
}

// Memory and reply stand side by side in each of these, as bus takes them: a struct of two `&mut` would be made anew at each call.
// Maximum, list and times stand one by one, as the C functions take them.

// Every packet of the list, once: two bytes say its length, low byte first, so the list has no chunks of one size; it is cut where it ends.
// The core stands in one local: a copy that no call needs would be measured too.
fn pass(before: Played, list: &[u8], memory: &mut [u8], reply: &mut [u8]) -> Played
    ensures { beside result memory.new reply.new ≡ played_once (beside before memory.old reply.old) list.now }
{
    let mut core = before.core;
    let mut sum = before.sum;
    let mut left = list;
    while let [low, high, rest @ ..] = left {
        let said = u16::from_le_bytes([*low, *high]) as usize;
        let (packet, later) = rest.split_at(said.min(rest.len()));
        let o = bus::packet(core, memory, reply, packet);
        core = o.core;
        sum = summed(sum, o.answer, reply);
        left = later;
    }
    Played { core, sum }
}

// The list played so many times; the bulk buffers are armed again after each pass.
pub fn passes(
    core: Core,
    maximum: u32,
    list: &[u8],
    times: u32,
    memory: &mut [u8],
    reply: &mut [u8],
) -> Played
    ensures { beside result memory.new reply.new ≡ played_times maximum list.now times (unanswered core memory.old reply.old) }
{
    let mut now = Played { core, sum: 0 };
    for _ in 0..times {
        let played = pass(now, list, memory, reply);
        now = Played {
            core: scene::with_bulk(played.core, maximum),
            ..played
        };
    }
    now
}

// A packet, and no other before the time runs out, so many times.
pub fn waits(before: Core, packet: &[u8], times: u32, memory: &mut [u8], reply: &mut [u8]) -> Played
    ensures { beside result memory.new reply.new ≡ waited packet.now times (unanswered before memory.old reply.old) }
{
    let mut core = before;
    let mut sum = 0u64;
    for _ in 0..times {
        let arrived = bus::packet(core, memory, reply, packet);
        core = arrived.core;
        sum = summed(sum, arrived.answer, reply);
        let ended = bus::timeout(core, memory, reply);
        core = ended.core;
        sum = summed(sum, ended.answer, reply);
    }
    Played { core, sum }
}
