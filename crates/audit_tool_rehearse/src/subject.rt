//! The stores and cores that are rehearsed: the calls of `audit_store` and `audit_server` without their contracts. A
//! scene prints what they return, and owes nothing but its own safety, which takes much less time to prove where no
//! contract is in the way.
ghost use Rattle.std.specs.List.{AllByRecursion};
ghost use Rattle.std.specs.Prelude.{◌≤◌, length};
ghost use Rattle.audit_base.specs.declared.limits.TheConstants.{SESSIONS};
ghost use Rattle.audit_server.specs.Driving.{IsOfSession};

use audit_base::SESSIONS;
use audit_chain::{Event, Key};
use audit_disk::Sectors;
use audit_proof::Commitment;
use audit_serve_ready::{Door, Slot};
use audit_server::{CoreFailed, DriveFault, FeedFault, ServeEnd, SessionStream, Step};
use audit_store::{Failed, Receipt, StoreError};
use std::alloc::Global;

/// A store on a device.
#[derive(Drop)]
pub struct Store<D: Sectors> {
    inner: audit_store::Store<D>,
}

fn subject<D: Sectors>(
    made: Result<audit_store::Store<D>, Failed<D>>,
) -> Result<Store<D>, Failed<D>> {
    match made {
        Ok(inner) => Ok(Store { inner }),
        Err(failed) => Err(failed),
    }
}

impl<D: Sectors> Store<D> {
    pub fn format(alloc: Global, disk: D, first_key: Key) -> Result<Store<D>, Failed<D>> {
        subject(audit_store::Store::format(alloc, disk, first_key))
    }

    pub fn open(alloc: Global, disk: D) -> Result<Store<D>, Failed<D>> {
        subject(audit_store::Store::open(alloc, disk))
    }

    pub fn append(&mut self, events: &[Event]) -> Result<Receipt, StoreError> {
        self.inner.append(events)
    }

    pub fn entry(&mut self, index: u64) -> Result<Vec<u8>, StoreError> {
        self.inner.entry(index)
    }

    pub fn commitment(&self) -> Commitment {
        self.inner.commitment()
    }

    pub fn end(&self) -> u64 {
        self.inner.end()
    }

    pub fn generation(&self) -> u64 {
        self.inner.generation()
    }

    pub fn version(&self) -> u16 {
        self.inner.version()
    }

    pub fn into_disk(self) -> D {
        self.inner.into_disk()
    }
}

/// A core over a store. The number of a session is taken modulo the number of sessions.
#[derive(Drop)]
pub struct Core<D: Sectors> {
    inner: audit_server::Core<D>,
}

impl<D: Sectors> Core<D> {
    /// Makes a core over a store. If memory is refused, the error is the store.
    pub fn new(alloc: Global, store: Store<D>) -> Result<Core<D>, Store<D>> {
        match audit_server::Core::new(alloc, store.inner) {
            Ok(inner) => Ok(Core { inner }),
            Err(CoreFailed { store }) => Err(Store { inner: store }),
        }
    }

    pub fn feed(&mut self, session: usize, piece: &[u8]) -> Result<(), FeedFault> {
        self.inner.feed(session % SESSIONS, piece)
    }

    pub fn end(&mut self, session: usize) -> Result<(), StoreError> {
        self.inner.end(session % SESSIONS)
    }

    pub fn flush(&mut self) -> Result<(), StoreError> {
        self.inner.flush()
    }

    pub fn drive(&mut self, steps: &[Step]) -> Result<(), DriveFault>
        requires { AllByRecursion IsOfSession steps.now }
    {
        audit_server::drive(&mut self.inner, steps)
    }

    pub fn serve<S: SessionStream>(&mut self, streams: &mut [S; 2]) -> ServeEnd<StoreError> {
        audit_server::serve(&mut self.inner, streams)
    }

    pub fn serve_clients<G: Door>(
        &mut self,
        slots: &mut [Slot<G::Stream>],
        door: &mut G,
        backlog: usize,
    ) -> Result<(), StoreError>
        requires { length slots.old ≤ SESSIONS }
    {
        audit_serve_ready::serve_clients(&mut self.inner, slots, door, backlog)
    }

    pub fn take_output(&mut self, session: usize) -> Vec<u8> {
        self.inner.take_output(session % SESSIONS)
    }

    pub fn ended(&self, session: usize) -> bool {
        self.inner.ended(session % SESSIONS)
    }

    pub fn into_store(self) -> Store<D> {
        Store {
            inner: self.inner.into_store(),
        }
    }
}
