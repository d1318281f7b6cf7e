// A line of the call script, as what it asks for. No rule of the core stands here: a call's numbers are handed on as written.
#![tactic(auto)]

mod argument;
mod forcing;
mod line;
mod reading;
mod word;

pub use line::{Call, Field, Forced, Lent, Line};
pub use reading::read;
