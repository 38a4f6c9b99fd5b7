// Machine texts and loop texts, good and bad, and what the rules answer to each.
#![tactic(auto)]

#[cfg(test)]
mod answers;
#[cfg(test)]
mod loops;
#[cfg(test)]
mod machines;
