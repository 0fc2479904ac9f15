// Detours over the worked station example and over circles of footpaths that take no time.
#![tactic(auto)]

#[cfg(test)]
mod cases;
