//! The tests of the offline auditor and of the commands, through public calls. They are in a separate crate because a
//! crate with tests is proved twice.
#![tactic(auto)]

#[cfg(test)]
mod auditor;
#[cfg(test)]
mod commands;
