// Packets that documents 01 and 003 write out, played through the packet layer.
#![tactic(auto)]

use std::io;
use wire::token::Token;

// The bytes in hexadecimal, and `-` for none.
fn show(rt: &impl Print, bytes: &[u8]) -> io::Result<()> {
    if bytes.is_empty() {
        print!(rt; "-")?;
    }
    for b in bytes {
        print!(rt; "{b:02x}")?;
    }
    Ok(())
}

// A token's bytes, and its address, endpoint and frame.
fn token(rt: &impl Print, packet: &[u8]) -> io::Result<()> {
    show(rt, packet)?;
    match wire::token::read(packet) {
        Some(
            Token {
                address,
                endpoint,
                frame,
            },
        ) => {
            print!(rt; " {address:02x}")?;
            print!(rt; " {endpoint:01x}")?;
            print!(rt; " {frame:03x}")?;
            println!(rt)
        }
        None => println!(rt; " bad"),
    }
}

// A data packet's bytes, its PID and its payload.
fn read(rt: &impl Print, packet: &[u8]) -> io::Result<()> {
    show(rt, packet)?;
    let read = wire::data::read(packet);
    match read.verdict {
        Some(kind) => {
            let pid = u8::from(kind);
            print!(rt; " {pid:01x}")?;
            print!(rt; " ")?;
            show(rt, read.payload)?;
            println!(rt)
        }
        None => println!(rt; " not good"),
    }
}

// What is written of a PID and a payload, read back.
fn data(rt: &impl Print, pid: u32, payload: &[u8]) -> io::Result<()> {
    let mut buffer = [0u8; 1027];
    match wire::data::write(pid, payload, &mut buffer) {
        Ok(length) => match buffer.get(..length) {
            Some(written) => read(rt, written),
            None => Ok(()),
        },
        Err(refusal) => {
            print!(rt; "refused")?;
            print!(rt; " {refusal}")?;
            println!(rt)
        }
    }
}

fn main(rt: HostRuntime) -> io::Result<()> {
    token(&rt, b"\xe1\x81\x58")?;
    token(&rt, b"\x69\x81\x58")?;
    token(&rt, b"\xe1\xe1\x6c")?;
    token(&rt, b"\xe1\x81")?;
    data(&rt, 3, b"\xff")?;
    data(&rt, 11, b"")?;
    data(&rt, 3, b"\x00")?;
    data(&rt, 7, b"\xa9")?;
    data(&rt, 9, b"\x00")?;
    read(&rt, b"\xc3\xff\x00\xfe")?;
    read(&rt, b"\xd3\xff\x00\xff")?;
    read(&rt, b"\xc3\xe1\x6c\x62")?;
    read(&rt, b"\xc3\xff")
}
