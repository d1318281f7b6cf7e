// Data packets, read and written.
ghost use Rattle.std.specs.Prelude.{◌≡◌, ◌++◌, ◌+◌, ◌≤◌, ◌<◌, length, drop};
ghost use Rattle.wire.specs.Crc.{crc16};
ghost use Rattle.wire.specs.Data.{packet, stretch, behind, right_check, verdict_of, verdict_from, DataRead, DataWritten};

use crate::pid::Kind;
use crate::{crc, pid, token};
use refusals::Refusal;

// What reading a data packet finds: the kind of a good one's PID, and its payload where it stands; of any other no kind and an empty payload.
#[derive(Clone, Copy)]
pub struct Packet<'a> {
    pub verdict: Option<Kind>,
    pub payload: &'a [u8],
}

// Between the PID byte and the CRC16.
#[tactic(auto, unfolding(crate::specs::Data::stretch))]
fn cut(bytes: &[u8]) -> &[u8]
    requires { 3 ≤ length bytes.now }
    ensures { (result.now ≡ stretch bytes.now) × (result.ref_ptr ≡ behind bytes.entry.ref_ptr) }
{
    &bytes[1..bytes.len() - 2]
}

#[tactic(auto, unfolding(crate::specs::Data::right_check, crate::specs::Data::check_sent))]
fn is_right(bytes: &[u8]) -> bool
    requires { 3 ≤ length bytes.now }
    ensures { result ≡ right_check bytes.now }
{
    let n = bytes.len();
    crc::check(cut(bytes)) == token::join(bytes[n - 2], bytes[n - 1])
}

// The tests in the order of `faults`.
#[tactic(auto, unfolding(crate::specs::Data::verdict_of))]
fn judge(bytes: &[u8]) -> Option<Kind>
    ensures { result ≡ verdict_of bytes.now }
{
    let n = bytes.len();
    if n < 3 {
        return None;
    }
    if 1027 < n {
        return None;
    }
    let kind = pid::read(bytes[0])?;
    if !pid::is_data(kind) {
        return None;
    }
    if !is_right(bytes) {
        return None;
    }
    Some(kind)
}

// Reads a data packet: its payload is the part of `bytes` between the PID byte and the CRC16.
pub fn read(bytes: &[u8]) -> Packet<'_>
    ensures { DataRead bytes.now bytes.entry.ref_ptr result }
{
    match judge(bytes) {
        Some(kind) => Packet {
            verdict: Some(kind),
            payload: cut(bytes),
        },
        None => Packet {
            verdict: None,
            payload: &bytes[..0],
        },
    }
}

// The verdict of a number, for who holds one that the C export laid down; docs/STATEMENTS.md names it.
#[tactic(auto, unfolding(crate::specs::Data::verdict_from))]
pub fn numbered(number: u8) -> Option<Kind>
    ensures { result ≡ verdict_from number }
{
    let kind = pid::named(u32::from(number));
    pid::is_data(kind).then_some(kind)
}

// The payload laid over `place`, and its check.
fn lay(payload: &[u8], place: &mut [u8]) -> u16
    requires { length payload.now ≡ length place.old }
    ensures { (result ≡ crc16 payload.now) × (place.new ≡ payload.now) }
{
    place.copy_from_slice(payload);
    crc::check(payload)
}

// The packet from the first byte.
#[tactic(auto, unfolding(crate::specs::Data::packet, crate::specs::Pid::pid_byte), using(crate::proofs::Laying::laid))]
fn fill(pid: u8, payload: &[u8], buffer: &mut [u8])
    requires { (pid < 16) × (length payload.now + 3 ≤ length buffer.old) }
    ensures { buffer.new ≡ packet pid payload.now ++ drop (length payload.now + 3) buffer.old }
{
    let end = payload.len() + 1;
    buffer[0] = pid + 16 * (15 - pid);
    let [lo, hi] = lay(payload, &mut buffer[1..end]).to_le_bytes();
    buffer[end] = lo;
    buffer[end + 1] = hi;
}

// Writes the data packet of a PID and a payload. A number and no Kind, since refusal 6 is about any number that is no data PID's.
#[tactic(auto, unfolding(crate::specs::Data::write_refusal, crate::specs::Data::write_of, crate::specs::Data::buffer_after), using(crate::proofs::Pids::data_small))]
pub fn write(pid: u32, payload: &[u8], buffer: &mut [u8]) -> Result<usize, Refusal>
    ensures { DataWritten pid payload.now buffer.old result buffer.new }
{
    if buffer.len() < 1027 {
        return Err(Refusal::ReplyTooShort);
    }
    if !pid::is_data(pid::named(pid)) {
        return Err(Refusal::OutOfRange);
    }
    if 1024 < payload.len() {
        return Err(Refusal::OutOfRange);
    }
    fill(pid as u8, payload, buffer);
    Ok(payload.len() + 3)
}
