// Tables of lives worked by hand, and what each register scheme makes of them by its formulas.
#![tactic(auto)]

#[cfg(test)]
mod tests;
