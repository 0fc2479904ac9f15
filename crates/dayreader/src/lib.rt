// Reading a day file: a reader that hands out its records, and a check of the whole file.
#![tactic(auto)]

pub mod checking;
pub mod reader;
pub mod record;

pub use checking::check;
pub use record::{Reader, Record};
