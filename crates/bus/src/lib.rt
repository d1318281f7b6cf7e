// The bus calls: a packet arrives, or a wait runs out. A rule takes one by one what its definition names, as
// `packet_of` and `turn_of`.
#![tactic(auto)]

mod active;
mod arrival;
mod data;
mod idle;
mod reply;
mod search;
mod token;
mod turn;

ghost use Rattle.std.specs.Prelude.{◌≡◌, not, [], ◌∷◌, eqb, ltb};
ghost use Rattle.refusals.specs.declared.Refusal.TheVariants.{NotSound, MemoryNotM, ReplyTooShort};
ghost use Rattle.refusals.specs.Refusals.{judged};
ghost use Rattle.bus.specs.Calls.{packet_of, timeout_of, Leaves};

pub use active::Direction;
pub use idle::Met;
use refusals::Refusal;
use state::{Core, Outcome, sound};
pub use token::Asks;
pub use turn::{Says, Step, Turn};

// Silent; a reply of so many bytes; or an SOF with its frame number.
#[derive(Clone, Copy, Debug, PartialEq, Eq)]
pub enum Answer {
    Silent,
    Reply(usize),
    Sof(u16),
}

// The verdict on the core is given, since the core as an argument would be copied.
fn judge_lend(sound: bool, size: u32, memory: usize, reply: usize) -> Result<(), Refusal>
    ensures { result ≡ judged ((not sound, NotSound) ∷ (not (eqb memory size), MemoryNotM) ∷ (ltb reply 1027, ReplyTooShort) ∷ []) }
{
    if !sound {
        return Err(Refusal::NotSound);
    }
    if memory != (size as usize) {
        return Err(Refusal::MemoryNotM);
    }
    if reply < reply::LEAST {
        return Err(Refusal::ReplyTooShort);
    }
    Ok(())
}

pub fn packet(core: Core, memory: &mut [u8], reply: &mut [u8], packet: &[u8]) -> Outcome<Answer>
    ensures { Leaves (packet_of core memory.old reply.old packet.now) result memory.new reply.new }
{
    let sound = sound::is_sound(core);
    let lent = judge_lend(sound, core.memory_size, memory.len(), reply.len());
    if let Err(why) = lent {
        return Outcome {
            core,
            answer: Err(why),
        };
    }
    let step = arrival::arrives(core, memory, packet);
    let front = reply.first_chunk_mut().unwrap();
    let answer = reply::answered(step.says, memory, front);
    Outcome {
        core: step.core,
        answer: Ok(answer),
    }
}

#[tactic(auto, unfolding(crate::specs::Calls::timeout_of))]
pub fn timeout(core: Core, memory: &[u8], reply: &[u8]) -> Outcome<Answer>
    ensures { result ≡ timeout_of core memory.now reply.now }
{
    let sound = sound::is_sound(core);
    let lent = judge_lend(sound, core.memory_size, memory.len(), reply.len());
    if let Err(why) = lent {
        return Outcome {
            core,
            answer: Err(why),
        };
    }
    Outcome {
        core: arrival::timed_out(core),
        answer: Ok(Answer::Silent),
    }
}
