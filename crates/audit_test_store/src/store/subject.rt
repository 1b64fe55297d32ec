//! The store under test: the calls of `audit_store` without their contracts. A test compares what they return with the
//! model, and owes nothing but its own safety, which takes much less time to prove where no contract is in the way.
use audit_chain::{Event, Key};
use audit_disk::{ReadOnly, SectorSource, Sectors};
use audit_proof::Commitment;
use audit_store::{Failed, Receipt, RunEnd, StoreError};
use std::alloc::Global;

// A store on a device, as `audit_store` has it.
#[derive(Drop)]
pub(crate) struct Store<D: Sectors> {
    inner: audit_store::Store<D>,
}

fn subject<D: Sectors>(
    made: Result<audit_store::Store<D>, Failed<D>>,
) -> Result<Store<D>, Failed<D>> {
    match made {
        Ok(inner) => Ok(Store { inner }),
        Err(failed) => Err(failed),
    }
}

impl<'a, S: SectorSource> Store<ReadOnly<'a, S>> {
    pub(crate) fn open_read_only(
        alloc: Global,
        source: &'a mut S,
    ) -> Result<Store<ReadOnly<'a, S>>, Failed<ReadOnly<'a, S>>> {
        subject(audit_store::Store::open_read_only(alloc, source))
    }
}

impl<D: Sectors> Store<D> {
    pub(crate) fn format(alloc: Global, disk: D, first_key: Key) -> Result<Store<D>, Failed<D>> {
        subject(audit_store::Store::format(alloc, disk, first_key))
    }

    pub(crate) fn open(alloc: Global, disk: D) -> Result<Store<D>, Failed<D>> {
        subject(audit_store::Store::open(alloc, disk))
    }

    pub(crate) fn append(&mut self, events: &[Event]) -> Result<Receipt, StoreError> {
        self.inner.append(events)
    }

    pub(crate) fn close(&mut self, last: &[Event]) -> Result<Receipt, StoreError> {
        self.inner.close(last)
    }

    pub(crate) fn run(&mut self, batches: &[Vec<Event>]) -> RunEnd {
        self.inner.run(batches)
    }

    pub(crate) fn entry(&mut self, index: u64) -> Result<Vec<u8>, StoreError> {
        self.inner.entry(index)
    }

    pub(crate) fn membership(&self, index: u64, count: u64) -> Result<Vec<[u8; 32]>, StoreError> {
        self.inner.membership(index, count)
    }

    pub(crate) fn incremental(&self, older: u64, newer: u64) -> Result<Vec<[u8; 32]>, StoreError> {
        self.inner.incremental(older, newer)
    }

    pub(crate) fn events_of_kind(&self, kind: u32) -> u64 {
        self.inner.events_of_kind(kind)
    }

    pub(crate) fn commitment(&self) -> Commitment {
        self.inner.commitment()
    }

    pub(crate) fn end(&self) -> u64 {
        self.inner.end()
    }

    pub(crate) fn generation(&self) -> u64 {
        self.inner.generation()
    }

    pub(crate) fn version(&self) -> u16 {
        self.inner.version()
    }

    pub(crate) fn closed(&self) -> bool {
        self.inner.closed()
    }

    pub(crate) fn calls(&self) -> u64 {
        self.inner.calls()
    }

    pub(crate) fn into_disk(self) -> D {
        self.inner.into_disk()
    }
}
