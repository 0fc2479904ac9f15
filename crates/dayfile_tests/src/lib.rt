// The day file: every refusal on both sides of its boundary, two faults at once, the reader and both round trips.
#![tactic(auto)]

#[cfg(test)]
mod files;
