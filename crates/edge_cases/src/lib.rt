// Loops worked by hand, and their edges by the rules.
#![tactic(auto)]

#[cfg(test)]
mod tests;
