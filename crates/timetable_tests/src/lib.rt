// Filling day tables and headway books: every refusal on both sides of its boundary.
#![tactic(auto)]

#[cfg(test)]
mod fillings;
