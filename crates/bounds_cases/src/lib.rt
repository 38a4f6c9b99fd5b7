// Edge lists worked by hand, and what the minimum and the heights of each are by the rules.
#![tactic(auto)]

#[cfg(test)]
mod tests;
