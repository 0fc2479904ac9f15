// Layers over any network, each again a network: gate hours and late notices.
#![tactic(auto)]

pub mod gate;
pub mod late;
pub mod layer;
mod notices;
mod windows;
