// Tests of reading on examples.
#![tactic(auto)]

#[cfg(test)]
mod tests;
