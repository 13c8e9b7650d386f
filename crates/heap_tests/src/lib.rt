// Every heap is put to the same tests.
#![tactic(auto)]

#[cfg(test)]
mod any_heap;
#[cfg(test)]
mod tests;
