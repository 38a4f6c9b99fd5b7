// Values worked by hand: words at the wrap, floats at their edges.
#![tactic(auto)]

#[cfg(test)]
mod tests;
