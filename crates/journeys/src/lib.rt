// Journeys over any network: the questions they answer, and walks along edges.
#![tactic(auto)]

pub mod question;
pub mod walks;
