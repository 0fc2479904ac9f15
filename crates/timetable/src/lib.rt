// What a timetable holds, and the two kinds of network that are filled from it.
#![tactic(auto)]

pub mod book;
mod checks;
mod edge;
pub mod records;
mod refilling;
pub mod table;
