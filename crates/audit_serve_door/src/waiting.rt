ghost use Rattle.std.specs.Prelude.{◌≡◌};
ghost use Rattle.audit_serve_door.specs.Entering.{first_number, first_of_all};
ghost use Rattle.audit_serve_door.specs.Waits.{IsPut};

use crate::choice::Heads;
use crate::entrance::Arrival;
use std::alloc::Global;
use std::collections::{BTreeMap, BTreeSet};

/// The connections that wait for a place, by the numbers in whose order they were accepted.
#[derive(Drop)]
pub(crate) struct Waiting<S> {
    // Those that have sent nothing.
    silent: BTreeMap<usize, Arrival<S>>,
    // Those that have sent something, or have ended: those that only read, and the others.
    readers: BTreeMap<usize, Arrival<S>>,
    others: BTreeMap<usize, Arrival<S>>,
    // The numbers of those that don't only read, have hung up and haven't left, whether they wait or have a place.
    closing: BTreeSet<usize>,
}

impl<S: Drop> Waiting<S> {
    ghost use Rattle.std.specs.Prelude.{◌≡◌, List, [], ◌∷◌, length, true, Some, None, is_some, if◌then◌else◌};
    ghost use Rattle.audit_serve_passes.specs.Rights.{only_reads};
    ghost use Rattle.audit_serve_door.specs.declared.entrance.Arrival.{Arrival};
    ghost use Rattle.audit_serve_door.specs.Entrances.{rights_at_arrival};
    ghost use Rattle.audit_serve_door.specs.Waits.{silent_at, heard_among, heard_at, KeepsOthers};
    ghost use Rattle.audit_serve_door.specs.Waits.{NobodyWaits, NoArrival, Passes, IsTakenOut};
    ghost use Rattle.audit_serve_door.specs.Entering.{has_reader, has_other, waits_as_other, heads_of};

    /// Nobody.
    pub(crate) fn new(alloc: Global) -> Waiting<S>
        ensures { NobodyWaits result }
    {
        Waiting {
            silent: BTreeMap::new(alloc),
            readers: BTreeMap::new(alloc),
            others: BTreeMap::new(alloc),
            closing: BTreeSet::new(alloc),
        }
    }

    /// Takes a connection that has sent nothing. Returns whether there was memory for it, and nobody waited with this
    /// number. If not, it or the other one is dropped.
    pub(crate) fn admit(&mut self, number: usize, arrival: Arrival<S>) -> bool
        ensures waits { result ≡ true → silent_at self.new number ≡ Some arrival }
        ensures others { KeepsOthers number self.old self.new }
        ensures passes { (gone : List (Arrival S)) × Passes (λ one. one ≡ arrival) gone self.old self.new
            × (length gone ≡ (if result then 0 else 1)) }
    {
        put(&mut self.silent, number, arrival)
    }

    /// Notes that a connection has sent something, if it waits. Returns whether there was memory for that, and nobody
    /// else had this number. If not, it or the other one is dropped.
    pub(crate) fn hear(&mut self, number: usize) -> bool
        ensures heard { result ≡ true → (arrival : Arrival S) → silent_at self.old number ≡ Some arrival
            → heard_among (only_reads (rights_at_arrival arrival)) self.new number ≡ Some arrival }
        ensures others { KeepsOthers number self.old self.new }
        ensures passes { (gone : List (Arrival S)) × Passes NoArrival gone self.old self.new
            × (length gone ≡ (if result then 0 else 1)) }
    {
        let Some(arrival) = self.silent.remove(&number) else {
            return true;
        };
        if arrival.rights().only_reads() {
            put(&mut self.readers, number, arrival)
        } else {
            put(&mut self.others, number, arrival)
        }
    }

    /// Whether a connection waits that has sent something and doesn't only read.
    pub(crate) fn is_other(&self, number: usize) -> bool
        ensures { result ≡ waits_as_other (Some number) self.now }
    {
        self.others.contains_key(&number)
    }

    /// Notes that a connection that doesn't only read has hung up.
    pub(crate) fn close(&mut self, number: usize)
        ensures { Passes NoArrival [] self.old self.new }
    {
        let _ = self.closing.insert(number);
    }

    /// Notes that a client has left, or that it was dropped.
    pub(crate) fn forget(&mut self, number: usize)
        ensures { Passes NoArrival [] self.old self.new }
    {
        let _ = self.closing.remove(&number);
    }

    /// Drops the oldest connection that has sent nothing. Returns whether there was one.
    pub(crate) fn drop_silent(&mut self) -> bool
        ensures { (gone : List (Arrival S)) × Passes NoArrival gone self.old self.new
            × (length gone ≡ (if result then 1 else 0)) }
    {
        match self.silent.pop_first() {
            Some(_) => true,
            None => false,
        }
    }

    /// Whether one waits that has sent something and only reads.
    pub(crate) fn has_reader(&self) -> bool
        ensures { result ≡ has_reader self.now }
    {
        !self.readers.is_empty()
    }

    /// Whether another one waits that has sent something.
    pub(crate) fn has_other(&self) -> bool
        ensures { result ≡ has_other self.now }
    {
        !self.others.is_empty()
    }

    /// Those that come next.
    pub(crate) fn heads(&self) -> Heads
        ensures { result ≡ heads_of self.now }
    {
        let closing = first_closing(&self.closing);
        Heads {
            reader: first_of(&self.readers),
            other: first_of(&self.others),
            closing,
            closing_waits: self.is_waiting(closing),
        }
    }

    fn is_waiting(&self, closing: Option<usize>) -> bool
        ensures { result ≡ waits_as_other closing self.now }
    {
        match closing {
            Some(number) => self.is_other(number),
            None => false,
        }
    }

    /// Whether one waits with this number that has sent something.
    pub(crate) fn has(&self, number: usize) -> bool
        ensures { result ≡ is_some (heard_at self.now number) }
    {
        self.others.contains_key(&number) || self.readers.contains_key(&number)
    }

    /// Gives away a connection that has sent something.
    pub(crate) fn take(&mut self, number: usize) -> Option<Arrival<S>>
        ensures given { result ≡ heard_at self.old number }
        ensures others { KeepsOthers number self.old self.new }
        ensures out { IsTakenOut number self.old self.new }
    {
        match self.others.remove(&number) {
            Some(arrival) => Some(arrival),
            None => self.readers.remove(&number),
        }
    }
}

// Puts a connection among others. Returns whether there was memory for it, and none of them had its number. If not, it
// or the other one is dropped.
fn put<S: Drop>(
    connections: &mut BTreeMap<usize, Arrival<S>>,
    number: usize,
    arrival: Arrival<S>,
) -> bool
    ensures { IsPut number arrival result connections.old connections.new }
{
    match connections.insert(number, arrival) {
        Ok(None) => true,
        Ok(Some(_)) => false,
        Err(_) => false,
    }
}

fn first_of<S>(connections: &BTreeMap<usize, Arrival<S>>) -> Option<usize>
    ensures { result ≡ first_number connections.now.entries }
{
    match connections.first_key_value() {
        Some((number, _)) => Some(*number),
        None => None,
    }
}

fn first_closing(closing: &BTreeSet<usize>) -> Option<usize>
    ensures { result ≡ first_of_all closing.now.keys }
{
    match closing.first() {
        Some(number) => Some(*number),
        None => None,
    }
}
