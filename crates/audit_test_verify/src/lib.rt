//! The tests of the offline verifier.
#![tactic(auto)]

#[cfg(test)]
mod fours;
#[cfg(test)]
mod pieces;
#[cfg(test)]
mod tests;
