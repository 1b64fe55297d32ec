use crate::server_core::Core;
use audit_disk_model::Sectors;
use audit_serve_passes::{Allowance, Rights, SessionCore};
use audit_store::StoreError;
use std::alloc::AllocError;

impl<D: Sectors> SessionCore for Core<D> {
    ghost use Rattle.audit_server.specs.Core.{Refuses};
    ghost use Rattle.audit_server.specs.CoreModel.{core_model, refuses_after};

    type Error = StoreError;

    ghost model = { core_model };

    ghost refuses = { Refuses };

    fn feed(&mut self, session: usize, piece: &[u8]) -> Result<(), StoreError> {
        match self.feed(session, piece) {
            Ok(()) => Ok(()),
            Err(fault) => Err(fault.error),
        }
    }

    fn feed_within(
        &mut self,
        session: usize,
        piece: &[u8],
        allowance: &mut Allowance,
    ) -> Result<usize, StoreError> {
        match self.feed_within(session, piece, allowance) {
            Ok(taken) => Ok(taken),
            Err(refused) => Err(refused.error),
        }
    }

    fn end(&mut self, session: usize) -> Result<(), StoreError> {
        self.end(session)
    }

    fn flush(&mut self) -> Result<(), StoreError> {
        self.flush()
    }

    fn take_output(&mut self, session: usize) -> Vec<u8> {
        self.take_output(session)
    }

    fn reopen(&mut self, session: usize, rights: Rights) -> Result<(), AllocError> {
        self.reopen(session, rights)
    }

    fn ended(&self, session: usize) -> bool {
        self.ended(session)
    }

    fn is_cut_off(&self, session: usize) -> bool {
        self.is_cut_off(session)
    }

    ghost refuses_after = { refuses_after };
}
