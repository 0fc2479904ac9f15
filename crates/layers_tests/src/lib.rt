// Tests of the layers: on the worked station example, in piles, and at the boundaries of every refusal.
#![tactic(auto)]

#[cfg(test)]
mod tests;
