// Tests of bytes, tokens and positions on examples.
#![tactic(auto)]

#[cfg(test)]
mod tests;
