// Listings worked by hand from the definition.
#![tactic(auto)]

#[cfg(test)]
mod tests;
