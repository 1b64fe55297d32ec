//! The tests of serving sessions: in passes, of clients that come and go, by rights, and of placed appends.
#![tactic(auto)]

#[cfg(test)]
mod clients;
#[cfg(test)]
mod latecomers;
#[cfg(test)]
mod passes;
#[cfg(test)]
mod places;
#[cfg(test)]
mod recorder;
#[cfg(test)]
mod rights;
#[cfg(test)]
mod state;
