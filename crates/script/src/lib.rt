// Lines of words: what a number, a word and bytes are, a line of any length taken in parts, and the text of an answer.
#![tactic(auto)]

mod intake;
mod number;
mod scan;
mod text;
mod words;

pub use intake::{Intake, begin, bytes, is_bytes, is_empty, line, taken};
pub use number::as_number;
pub use scan::find;
pub use text::{put, put_bytes, put_number};
pub use words::{beside, count, is, word};
