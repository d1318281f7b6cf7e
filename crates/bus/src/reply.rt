// The reply, laid from the first byte of the reply buffer.
ghost use Rattle.std.specs.Prelude.{◌≡◌, [], ◌∷◌, ◌≤◌, ◌+◌, length, take, drop};
ghost use Rattle.wire.specs.Pid.{number, pid_byte};
ghost use Rattle.wire.specs.Data.{packet};
ghost use Rattle.bus.specs.declared.Answer.TheVariants.{Reply};
ghost use Rattle.bus.specs.Turn.{said, laid, data_pid};
ghost use Rattle.bus.specs.Answers.{answer_of, SaysWithin};

use crate::Answer;
use crate::turn::Says;
use wire::data;
use wire::pid::Kind;

// The byte of a PID: its number, and in the high four bits the complement.
#[tactic(auto, unfolding(wire::specs::Pid::pid_byte), using(crate::proofs::Pids::four_bits))]
pub(crate) fn byte_of(kind: Kind) -> u8
    ensures { result ≡ pid_byte (number kind) }
{
    let number = u8::from(kind);
    number + 16 * (15 - number)
}

// The least size of a reply buffer: PID, 1,024 bytes and their check.
pub(crate) const LEAST: usize = 1027;

fn shake(byte: u8, reply: &mut [u8; LEAST]) -> Answer
    ensures value { result ≡ Reply 1 }
    ensures reply { reply.new ≡ laid (byte ∷ []) reply.old }
{
    reply[0] = byte;
    Answer::Reply(1)
}

fn data_pid(toggle: bool) -> u32
    ensures { result ≡ data_pid toggle }
{
    let kind = if toggle { Kind::Data1 } else { Kind::Data0 };
    kind as u32
}

#[tactic(auto, using(crate::proofs::Laying::sent, crate::proofs::Laying::sent_bytes))]
fn send(toggle: bool, payload: &[u8], reply: &mut [u8; LEAST]) -> Answer
    requires { length payload.now ≤ 1024 }
    ensures value { result ≡ Reply (length payload.now + 3) }
    ensures reply { reply.new ≡ laid (packet (data_pid toggle) payload.now) reply.old }
{
    Answer::Reply(data::write(data_pid(toggle), payload, reply).unwrap())
}

// So many bytes of the memory.
fn send_from(
    toggle: bool,
    from: usize,
    count: usize,
    memory: &[u8],
    reply: &mut [u8; LEAST],
) -> Answer
    requires { (from + count ≤ length memory.now) × (count ≤ 1024) }
    ensures value { result ≡ Reply (count + 3) }
    ensures reply { reply.new ≡ laid (packet (data_pid toggle) (take count (drop from memory.now))) reply.old }
{
    let end = from + count;
    send(toggle, &memory[from..end], reply)
}

#[tactic(auto, using(crate::proofs::Laying::sent_length))]
pub(crate) fn answered(says: Says, memory: &[u8], reply: &mut [u8; LEAST]) -> Answer
    requires { SaysWithin says (length memory.now) }
    ensures value { result ≡ answer_of says (length (said says memory.now)) }
    ensures reply { reply.new ≡ laid (said says memory.now) reply.old }
{
    match says {
        Says::Silence => Answer::Silent,
        Says::Ack => shake(byte_of(Kind::Ack), reply),
        Says::Nak => shake(byte_of(Kind::Nak), reply),
        Says::Stall => shake(byte_of(Kind::Stall), reply),
        Says::Nyet => shake(byte_of(Kind::Nyet), reply),
        Says::Data {
            toggle,
            from,
            count,
        } => { send_from(toggle, from, count, memory, reply) }
        Says::Frame(frame) => Answer::Sof(frame),
    }
}
