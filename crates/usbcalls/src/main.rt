// The call script: a call a line, and what the core answered to it.
#![tactic(auto)]

mod desk;
mod forced;
mod played;
mod port;
mod shown;

use desk::Desk;
use lines::Text;

// Room for any answer but that to a long show.
type Answer = Text<8704>;

fn main(rt: HostRuntime) {
    let mut desk = Desk::new();
    // Where a write failed nobody is left to be told.
    let _ = lines::run(&rt, &mut desk);
}
