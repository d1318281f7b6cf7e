// The functions of `exported` under their C names. An archive exports only functions of its own, so each calls the one of its name.
#![tactic(auto)]

ghost use Rattle.std.specs.Prelude.{◌≡◌, ◌≤◌, length};
ghost use Rattle.wire.specs.Crc.{crc16};
ghost use Rattle.refusals.specs.Refusals.{refusal, returned};
ghost use Rattle.wire.specs.Data.{verdict_of, verdict_number, payload_of, write_of, buffer_after};
ghost use Rattle.wire.specs.Token.{token_of};
ghost use Rattle.exported.specs.Numbers.{token_number};
ghost use Rattle.exported.specs.Scene.{set_up, sound_of};
ghost use Rattle.exported.specs.Traffic.{played_times, waited, unanswered};

// The check of a payload.
#[unsafe(no_mangle)]
pub extern "C" fn hnitbrek_crc16(payload: &[u8]) -> u16
    ensures { result ≡ crc16 payload.now }
{
    exported::hnitbrek_crc16(payload)
}

// Reads a data packet: lays down the verdict's number, since C has no Option, and returns the payload's length.
#[unsafe(no_mangle)]
pub extern "C" fn hnitbrek_read(packet: &[u8], verdict: &mut u8) -> usize
    ensures value { result ≡ length (payload_of packet.now) }
    ensures laid { verdict.new ≡ verdict_number (verdict_of packet.now) }
{
    exported::hnitbrek_read(packet, verdict)
}

// Writes a data packet: lays down the refusal's number, 0 for none, since C has no Result, and returns the packet's length, 0 where refused.
#[unsafe(no_mangle)]
pub extern "C" fn hnitbrek_write(
    pid: u32,
    payload: &[u8],
    buffer: &mut [u8],
    refused: &mut u8,
) -> usize
    ensures value { result ≡ returned (write_of pid payload.now buffer.old) }
    ensures laid { refused.new ≡ refusal (write_of pid payload.now buffer.old) }
    ensures left { buffer.new ≡ buffer_after pid payload.now buffer.old }
{
    exported::hnitbrek_write(pid, payload, buffer, refused)
}

// Reads a token: its eleven bits, or 2,048, which no eleven bits are, since C has no Option.
#[unsafe(no_mangle)]
pub extern "C" fn hnitbrek_token(packet: &[u8]) -> u32
    ensures { result ≡ token_number (token_of packet.now) }
{
    exported::hnitbrek_token(packet)
}

// How often the sound test says yes; the address differs each time, so that no test can be left out.
#[unsafe(no_mangle)]
pub extern "C" fn hnitbrek_sound(maximum: u32, times: u32) -> u32
    ensures value { result ≡ sound_of (set_up maximum) times }
    ensures most { result ≤ times }
{
    exported::hnitbrek_sound(maximum, times)
}

// Plays a list of packets so many times and returns a sum of the answers.
#[unsafe(no_mangle)]
pub extern "C" fn hnitbrek_play(
    maximum: u32,
    list: &[u8],
    times: u32,
    memory: &mut [u8],
    reply: &mut [u8],
) -> u64
    ensures value { result ≡ (played_times maximum list.now times (unanswered (set_up maximum) memory.old reply.old)).sum }
    ensures stored { memory.new ≡ (played_times maximum list.now times (unanswered (set_up maximum) memory.old reply.old)).memory }
    ensures laid { reply.new ≡ (played_times maximum list.now times (unanswered (set_up maximum) memory.old reply.old)).reply }
{
    exported::hnitbrek_play(maximum, list, times, memory, reply)
}

// Plays a packet and then a timeout so many times and returns a sum of the answers.
#[unsafe(no_mangle)]
pub extern "C" fn hnitbrek_time_out(
    maximum: u32,
    packet: &[u8],
    times: u32,
    memory: &mut [u8],
    reply: &mut [u8],
) -> u64
    ensures value { result ≡ (waited packet.now times (unanswered (set_up maximum) memory.old reply.old)).sum }
    ensures stored { memory.new ≡ (waited packet.now times (unanswered (set_up maximum) memory.old reply.old)).memory }
    ensures laid { reply.new ≡ (waited packet.now times (unanswered (set_up maximum) memory.old reply.old)).reply }
{
    exported::hnitbrek_time_out(maximum, packet, times, memory, reply)
}
