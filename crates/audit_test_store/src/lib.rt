//! The tests of the store's crates and of group commit, through public calls. They are in a separate crate because a
//! crate with tests is proved twice.
#![tactic(auto)]

ghost use Rattle.std.specs.Prelude.{IsTrue};

#[cfg(test)]
use std::process::Abort;

/// Stops a test unless a condition holds, and prints the condition. A number of the case, and one of its part, may be
/// given, to be printed too. The branch that stops is in a function, so that it isn't proved again for each condition.
#[cfg(test)]
macro_rules! check {
    ($rt:expr; $condition:expr $(,)?) => {
        crate::check($rt, $condition, stringify!($condition))
    };
    ($rt:expr; $condition:expr, $case:expr $(,)?) => {
        crate::check_case($rt, $condition, stringify!($condition), $case as u64)
    };
    ($rt:expr; $condition:expr, $case:expr, $part:expr $(,)?) => {
        crate::check_part($rt, $condition, stringify!($condition), $case as u64, $part as u64)
    };
}

#[cfg(test)]
fn check(rt: &impl Abort, holds: bool, condition: &str)
    ensures { IsTrue holds }
{
    assert!(rt; holds, "assertion failed: {condition}");
}

#[cfg(test)]
fn check_case(rt: &impl Abort, holds: bool, condition: &str, case: u64)
    ensures { IsTrue holds }
{
    assert!(rt; holds, "assertion failed: {condition} in case {case}");
}

#[cfg(test)]
fn check_part(rt: &impl Abort, holds: bool, condition: &str, case: u64, part: u64)
    ensures { IsTrue holds }
{
    assert!(rt;
        holds,
        "assertion failed: {condition} in case {case}, {part}"
    );
}

#[cfg(test)]
mod batch_size;
#[cfg(test)]
mod commit;
#[cfg(test)]
mod fours;
#[cfg(test)]
mod index;
#[cfg(test)]
mod layout;
#[cfg(test)]
mod opening;
#[cfg(test)]
mod store;
