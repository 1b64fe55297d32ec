//! The tests of the chain, of the tree and its proofs, and of their foundations, through public calls. They are in a
//! separate crate because a crate with tests is proved twice.
#![tactic(auto)]

#[cfg(test)]
mod base;
#[cfg(test)]
mod chain;
#[cfg(test)]
mod lanes;
#[cfg(test)]
mod mac;
#[cfg(test)]
mod proof;
#[cfg(test)]
mod tree;
