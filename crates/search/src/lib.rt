// A search: it is opened on a network and a question, gives journey after journey, and is closed.
#![tactic(auto)]

pub mod calls;
pub mod open;
pub mod run;
