// The night desk's listing of document 01: a packet a line in hexadecimal, and what the core replies to it, as text or as a capture.
#![tactic(auto)]

mod capture;
mod desk;
mod output;
mod printed;

use desk::Desk;
pub use output::Form;
use output::Output;
use std::io;
use std::io::Input;

// The set-up is made, and what the input says is played on it.
fn listed(rt: &(impl Input + Print), form: Form) -> io::Result<()> {
    let output = Output::begun(rt, form)?;
    let mut desk = Desk::new(output);
    lines::run(rt, &mut desk)
}

pub fn run(rt: &(impl Input + Print), form: Form) {
    // Where a write failed nobody is left to be told.
    let _ = listed(rt, form);
}
