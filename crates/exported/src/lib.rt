// What a Rust or a C program links: numbers and lent bytes, since a core by value does not cross.
#![tactic(auto)]

mod scene;
mod traffic;

ghost use Rattle.std.specs.Prelude.{◌≡◌, ◌≤◌, length};
ghost use Rattle.wire.specs.Crc.{crc16};
ghost use Rattle.refusals.specs.Refusals.{refusal, returned};
ghost use Rattle.wire.specs.Data.{verdict_of, verdict_number, payload_of, write_of, buffer_after};
ghost use Rattle.wire.specs.Token.{token_of};
ghost use Rattle.exported.specs.Numbers.{token_number};
ghost use Rattle.exported.specs.Scene.{set_up, yes_of, sound_of};
ghost use Rattle.exported.specs.Traffic.{played_times, waited, unanswered};

use state::{Core, sound, update};
use wire::{crc, data, token};

// The check of a payload.
pub fn hnitbrek_crc16(payload: &[u8]) -> u16
    ensures { result ≡ crc16 payload.now }
{
    crc::check(payload)
}

// Reads a data packet: lays down the verdict's number, since C has no Option, and returns the payload's length.
pub fn hnitbrek_read(packet: &[u8], verdict: &mut u8) -> usize
    ensures value { result ≡ length (payload_of packet.now) }
    ensures laid { verdict.new ≡ verdict_number (verdict_of packet.now) }
{
    let read = data::read(packet);
    *verdict = read.verdict.map_or(0, u8::from);
    read.payload.len()
}

// Writes a data packet: lays down the refusal's number, 0 for none, since C has no Result, and returns the packet's length, 0 where refused.
pub fn hnitbrek_write(pid: u32, payload: &[u8], buffer: &mut [u8], refused: &mut u8) -> usize
    ensures value { result ≡ returned (write_of pid payload.now buffer.old) }
    ensures laid { refused.new ≡ refusal (write_of pid payload.now buffer.old) }
    ensures left { buffer.new ≡ buffer_after pid payload.now buffer.old }
{
    match data::write(pid, payload, buffer) {
        Ok(n) => {
            *refused = 0;
            n
        }
        Err(why) => {
            *refused = u8::from(why);
            0
        }
    }
}

// Reads a token: its eleven bits, or 2,048, which no eleven bits are, since C has no Option.
pub fn hnitbrek_token(packet: &[u8]) -> u32
    ensures { result ≡ token_number (token_of packet.now) }
{
    match token::read(packet) {
        Some(token) => token.frame as u32,
        None => 2048,
    }
}

// 1 where the state is sound.
fn yes(core: Core) -> u32
    ensures value { result ≡ yes_of core }
    ensures most { result ≤ 1 }
{
    sound::is_sound(core) as u32
}

// How often the sound test says yes; the address differs each time, so that no test can be left out.
pub fn hnitbrek_sound(maximum: u32, times: u32) -> u32
    ensures value { result ≡ sound_of (set_up maximum) times }
    ensures most { result ≤ times }
{
    let mut core = scene::set_up(maximum);
    let mut sound = 0u32;
    for i in 0..times {
        core = update::with_address(core, i % 128);
        sound += yes(core);
    }
    sound
}

// Plays a list of packets so many times and returns a sum of the answers.
pub fn hnitbrek_play(
    maximum: u32,
    list: &[u8],
    times: u32,
    memory: &mut [u8],
    reply: &mut [u8],
) -> u64
    ensures value { result ≡ (played_times maximum list.now times (unanswered (set_up maximum) memory.old reply.old)).sum }
    ensures stored { memory.new ≡ (played_times maximum list.now times (unanswered (set_up maximum) memory.old reply.old)).memory }
    ensures laid { reply.new ≡ (played_times maximum list.now times (unanswered (set_up maximum) memory.old reply.old)).reply }
{
    let played = traffic::passes(scene::set_up(maximum), maximum, list, times, memory, reply);
    played.sum
}

// Plays a packet and then a timeout so many times and returns a sum of the answers.
pub fn hnitbrek_time_out(
    maximum: u32,
    packet: &[u8],
    times: u32,
    memory: &mut [u8],
    reply: &mut [u8],
) -> u64
    ensures value { result ≡ (waited packet.now times (unanswered (set_up maximum) memory.old reply.old)).sum }
    ensures stored { memory.new ≡ (waited packet.now times (unanswered (set_up maximum) memory.old reply.old)).memory }
    ensures laid { reply.new ≡ (waited packet.now times (unanswered (set_up maximum) memory.old reply.old)).reply }
{
    let played = traffic::waits(scene::set_up(maximum), packet, times, memory, reply);
    played.sum
}
