//! Numbers of events by kind.
ghost use Rattle.std.specs.Prelude.{◌≡◌, ◌↔◌, ◌≤◌, [], IsTrue, MatchOption, IfErr, OnOk, OnErr};
ghost use Rattle.audit_link.specs.Counts.{IsCount, Ascends, AreCounts, count_of, added, IsUncounted};
ghost use Rattle.audit_link.specs.Places.{IsAscending, IsPlaceOf};

use crate::counts_error::CountsError;
use crate::kind_count::KindCount;
use audit_base::RESERVED_KIND;
use std::alloc::Global;
use std::marker::Model;

/// The most kinds that are counted: their lines fit the payload of an event.
pub const MAX_KINDS: usize = 1000;

/// How many events of each kind there are: each kind once, in ascending order, at most `MAX_KINDS`, none of them the
/// reserved one and each with at least one event.
#[derive(Debug, Drop)]
pub struct Counts {
    counts: Vec<KindCount>,
}

impl Model for Counts {
    ghost use Rattle.std.specs.Prelude.{List};
    ghost use Rattle.audit_link.specs.declared.kind_count.KindCount.{KindCount};
    ghost use Rattle.audit_link.specs.Counts.{AreCounts};

    ghost Value = { List KindCount };

    ghost view = { λ counts. counts.counts.items };

    ghost invariant = { λ counts. AreCounts counts.counts.items };
}

impl Counts {
    /// No events.
    pub fn new(alloc: Global) -> Counts
        ensures { result ≡ [] }
    {
        Counts {
            counts: Vec::new(alloc),
        }
    }

    /// The numbers in a list, if it has each kind once, in ascending order, at most `MAX_KINDS`, none of them the
    /// reserved one and each with at least one event.
    pub fn from_vec(counts: Vec<KindCount>) -> Option<Counts>
        ensures { MatchOption result (¬ (AreCounts counts.items)) (λ made. made ≡ counts.items) }
    {
        if are_counts(&counts) {
            Some(Counts { counts })
        } else {
            None
        }
    }

    /// The numbers, in ascending order of the kinds.
    pub fn as_slice(&self) -> &[KindCount]
        ensures same { result.now ≡ self.now }
        ensures counts { AreCounts self.now }
    {
        &self.counts
    }

    /// How many events of a kind there are.
    pub fn of(&self, kind: u32) -> u64
        ensures { result ≡ count_of kind self.now }
    {
        count_in(&self.counts, kind)
    }

    /// Counts one more event of a kind. Errors, after which nothing has changed: `Reserved` for the reserved kind;
    /// `TooManyKinds` if this would be one of more than `MAX_KINDS`; `TooManyEvents` if its number would be 2^64;
    /// `Memory`.
    pub fn add_event(&mut self, kind: u32) -> Result<(), CountsError>
        ensures added { OnOk result (self.new ≡ added kind self.old) }
        ensures kept { OnErr result (self.new ≡ self.old) }
        ensures fault { IfErr result (IsUncounted kind self.old) }
    {
        if kind == RESERVED_KIND {
            return Err(CountsError::Reserved);
        }
        match place_of(&self.counts, kind) {
            Place::At { place, count } => {
                let Some(count) = count.checked_add(1) else {
                    return Err(CountsError::TooManyEvents);
                };
                self.counts[place] = KindCount { kind, count };
            }
            Place::Before(place) => {
                if self.counts.len() >= MAX_KINDS {
                    return Err(CountsError::TooManyKinds);
                }
                let counted = KindCount { kind, count: 1 };
                if self.counts.insert(place, counted).is_err() {
                    return Err(CountsError::Memory);
                }
            }
        }
        Ok(())
    }
}

// Where a kind is counted.
#[derive(Clone, Copy)]
enum Place {
    // The kind is at this place, and has this number of events.
    At { place: usize, count: u64 },
    // It would be before the one at this place.
    Before(usize),
}

fn place_of(counts: &[KindCount], kind: u32) -> Place
    requires { IsAscending counts.now }
    ensures { IsPlaceOf kind counts.now result }
{
    let Some((first, more)) = counts.split_first() else {
        return Place::Before(0);
    };
    if first.kind == kind {
        return Place::At {
            place: 0,
            count: first.count,
        };
    }
    if kind < first.kind {
        return Place::Before(0);
    }
    match place_of(more, kind) {
        Place::At { place, count } => Place::At {
            place: place + 1,
            count,
        },
        Place::Before(place) => Place::Before(place + 1),
    }
}

fn count_in(counts: &[KindCount], kind: u32) -> u64
    ensures { result ≡ count_of kind counts.now }
{
    let Some((first, more)) = counts.split_first() else {
        return 0;
    };
    if first.kind == kind {
        first.count
    } else {
        count_in(more, kind)
    }
}

fn are_counts(counts: &[KindCount]) -> bool
    ensures { IsTrue result ↔ AreCounts counts.now }
{
    counts.len() <= MAX_KINDS && ascend(0, counts)
}

// Whether each kind is above the one before it, and none below the lowest.
fn ascend(lowest: u64, counts: &[KindCount]) -> bool
    requires { lowest ≤ RESERVED_KIND }
    ensures { IsTrue result ↔ Ascends lowest counts.now }
{
    let Some((first, more)) = counts.split_first() else {
        return true;
    };
    let next = u64::from(first.kind) + 1;
    is_count(first) && lowest < next && ascend(next, more)
}

fn is_count(counted: &KindCount) -> bool
    ensures { IsTrue result ↔ IsCount counted.now }
{
    counted.kind < RESERVED_KIND && counted.count > 0
}
