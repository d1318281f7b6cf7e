// A capture file that Wireshark opens: classic pcap, little-endian, with time stamps in microseconds.
ghost use Rattle.std.specs.Prelude.{◌≡◌, ◌++◌, ◌+◌, ◌≤◌, length, drop};
ghost use Rattle.std.proofs.lemmas.List.Edits.{sets};
ghost use Rattle.listing.specs.Capture.{low_first, header_of, head_of, record_of};

// So many bytes of a packet are kept: past 1,027 a packet's outcome is that of its first 1,028.
pub const KEPT: usize = 1028;

// So many bytes stand in front of them.
pub const HEAD: usize = 16;

// The low four bytes of a number, stored from `at` on.
fn number(buffer: &mut [u8], at: usize, n: u64)
    requires { at + 4 ≤ length buffer.old }
    ensures { buffer.new ≡ sets buffer.old at (low_first 4 n) }
{
    buffer[at..at + 4].copy_from_slice(&n.to_le_bytes()[..4]);
}

// What the file begins with.
pub fn header() -> [u8; 24]
    ensures { result ≡ header_of }
{
    let mut buffer = [0; 24];
    number(&mut buffer, 0, 0xA1B2C3D4);
    number(&mut buffer, 4, 0x00040002); // version 2.4
    number(&mut buffer, 8, 0); // zone
    number(&mut buffer, 12, 0); // accuracy
    number(&mut buffer, 16, KEPT as u64); // bytes kept
    number(&mut buffer, 20, 294); // USB 2.0, full speed
    buffer
}

// What stands in front of a packet's bytes.
fn head(buffer: &mut [u8], stamp: u64, kept: u64, original: u64)
    requires { 16 ≤ length buffer.old }
    ensures { buffer.new ≡ head_of stamp kept original ++ drop 16 buffer.old }
{
    number(buffer, 0, stamp / 1000000);
    number(buffer, 4, stamp % 1000000);
    number(buffer, 8, kept);
    number(buffer, 12, original);
}

// Puts the record of a packet at the front of the buffer, and answers how long it is.
pub fn lay(stamp: u64, original: u64, kept: &[u8], buffer: &mut [u8]) -> usize
    requires { 16 + length kept.now ≤ length buffer.old }
    ensures { (result ≡ 16 + length kept.now) × (buffer.new ≡ record_of stamp original kept.now ++ drop result buffer.old) }
{
    head(buffer, stamp, kept.len() as u64, original);
    let end = HEAD + kept.len();
    buffer[HEAD..end].copy_from_slice(kept);
    end
}
