// What the calls act on.
use calls::Lent;
use frame::Frame;
use state::{Core, Speed};

// The most that a line can lend.
pub const MEMORY: usize = 131072;

const REPLY: usize = 1040;

#[derive(Drop)]
pub struct Port {
    pub core: Core,
    pub frame: Frame,
    pub lend: Option<Lent>,
    pub memory: [u8; MEMORY],
    pub reply: [u8; REPLY],
}

impl Port {
    // Before the first start: what a refused start returns.
    pub fn new() -> Port {
        Port {
            core: firmware::start(u32::MAX, Speed::Full).core,
            frame: frame::empty(),
            lend: None,
            memory: [0; MEMORY],
            reply: [0; REPLY],
        }
    }

    // How many bytes of the memory and of the reply buffer a call is lent.
    pub fn lent(&self) -> Lent {
        self.lend.unwrap_or(Lent {
            memory: self.core.memory_size,
            reply: 1027,
        })
    }
}

// The first n bytes; all where a forced M, or what a line lends, is above their number.
pub fn front_mut(bytes: &mut [u8], n: u32) -> &mut [u8] {
    let end = (n as usize).min(bytes.len());
    &mut bytes[..end]
}
