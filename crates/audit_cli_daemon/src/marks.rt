//! How full a store is.
ghost use Rattle.std.specs.Prelude.{◌≡◌, ◌↔◌, IsTrue};
ghost use Rattle.audit_cli_daemon.specs.Marks.{highest_mark, mark_passed, IsReached};

/// The marks, in percent of the sectors that a log may fill.
pub const MARKS: [u64; 3] = [80, 90, 100];

/// Returns the highest of the marks that a log reaches which takes `taken` of `most` sectors, if it is above the one of
/// which it was said before, or 0. The headers are counted in both.
pub fn mark_passed(said: u64, taken: u64, most: u64) -> Option<u64>
    ensures { result ≡ mark_passed said taken most }
{
    let mark = highest_mark(taken, most);
    (said < mark).then_some(mark)
}

// The highest mark that is reached, or 0.
fn highest_mark(taken: u64, most: u64) -> u64
    ensures { result ≡ highest_mark taken most }
{
    let [low, high, all] = MARKS;
    if is_reached(all, taken, most) {
        all
    } else if is_reached(high, taken, most) {
        high
    } else if is_reached(low, taken, most) {
        low
    } else {
        0
    }
}

// Whether the sectors taken are at least this percentage of all sectors.
fn is_reached(percent: u64, taken: u64, most: u64) -> bool
    ensures { IsTrue result ↔ IsReached percent taken most }
{
    u128::from(percent) * u128::from(most) <= 100 * u128::from(taken)
}
