// The day file: unpacking it into lists of records, and packing lists into it.
#![tactic(auto)]

pub mod lists;
mod numbers;
pub mod reading;
mod stored;
pub mod writing;

pub use dayformat::Lengths;
pub use dayreader::{Reader, Record};
pub use lists::{Lists, Room};
pub use reading::unpack;
pub use writing::pack;
