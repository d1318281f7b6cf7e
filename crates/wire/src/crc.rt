// The check of a payload: CRC16, eight bytes at a time.
ghost use Rattle.std.specs.Prelude.{◌≡◌, ◌<◌};
ghost use Rattle.std.specs.List.{concat};
ghost use Rattle.wire.specs.Crc.{step, after, bits, sent, g16, crc16};
ghost use Rattle.wire.specs.Wide.{settled};

// One bit.
fn bit(r: u16, b: u16) -> u16
    requires { b < 2 }
    ensures { result ≡ step g16 r b }
{
    if (r % 2) ^ b == 1 {
        (r / 2) ^ 0xA001
    } else {
        r / 2
    }
}

// One byte, bit by bit: the compiler makes a table of this loop.
fn byte(r0: u16, b: u8) -> u16
    ensures { result ≡ after g16 r0 (bits 8 b) }
{
    let mut r = r0;
    let mut v = b as u16;
    for _ in 0..8u32 {
        r = bit(r, v % 2);
        v = v / 2;
    }
    r
}

// Each byte of a stretch.
#[tactic(auto, using(crate::proofs::Register::byte_next, crate::proofs::Register::byte_end))]
fn each(r0: u16, p: &[u8]) -> u16
    ensures { result ≡ after g16 r0 (sent p.now) }
{
    let mut r = r0;
    for b in p {
        r = byte(r, *b);
    }
    r
}

// The register that a wide one, of 64 bits, stands for: where 64 zero bits take it, and its own bits an empty one.
#[tactic(auto, using(crate::proofs::Wide::bytes_in))]
fn settle(wide: u64) -> u16
    ensures { result ≡ settled wide }
{
    each(0, &wide.to_le_bytes())
}

// 64 zero bits more, and the register stays wide: x^64 is x^18 + x^8 + x^3 modulo the generator.
#[tactic(auto, using(crate::proofs::Wide::onward))]
fn onward(wide: u64) -> u64
    ensures { settled result ≡ after g16 (settled wide) (bits 64 0) }
{
    let s = wide ^ (wide << 46) ^ (wide << 56) ^ (wide << 61);
    (s >> 18) ^ (s >> 8) ^ (s >> 3)
}

// Eight bytes as one number: its bits are theirs.
fn eight(bytes: [u8; 8]) -> u64
    ensures { bits 64 result ≡ sent bytes }
{
    u64::from_le_bytes(bytes)
}

// The wide register after each eight of a stretch; the one that it begins with stands for all ones.
#[tactic(auto, unfolding(crate::specs::Crc::after, crate::specs::Crc::bits, crate::specs::Crc::step), using(crate::proofs::Wide::eight_next, crate::proofs::Wide::eight_end))]
fn eights(p: &[[u8; 8]]) -> u64
    ensures { settled result ≡ after g16 65535 (sent (concat p.now)) }
{
    let mut wide: u64 = 0x1557_0000_0000_0000;
    for bytes in p {
        wide = onward(wide) ^ eight(*bytes);
    }
    wide
}

// Below two eights the wide register costs more than it saves.
#[tactic(auto, unfolding(crate::specs::Crc::check), using(crate::proofs::Register::after_parts, crate::proofs::Wide::concat_eights))]
pub fn check(p: &[u8]) -> u16
    ensures { result ≡ crc16 p.now }
{
    if p.len() < 16 {
        return !each(65535, p);
    }
    let (whole, rest) = p.as_chunks::<8>();
    !each(settle(eights(whole)), rest)
}
