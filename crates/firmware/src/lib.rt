// The firmware's calls of document 01. Each judges its own arguments, and where it refuses returns the state that it was given.
// Arguments stand one by one, also in what judges them: `arm_of` and `disarm_of` take index, buffer, base and length so, in document 01's order.
#![tactic(auto)]

mod answer;
mod buffer;
mod device;
mod record;

pub use buffer::{arm, disarm};
pub use device::{bus_reset, set_address, start, system_events};
pub use record::{clear_halt, configure, record_events, set_halt};
