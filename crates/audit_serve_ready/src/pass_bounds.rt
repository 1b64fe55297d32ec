//! What bounds the turns of a pass.

use crate::limits::MAX_READ;
use crate::ready_stream::ReadyStream;
use crate::slot::Slot;

/// How much is read from each client in a pass, and kept for it.
#[derive(Clone, Copy)]
pub(crate) struct PassBounds {
    /// The most bytes that are kept for a client.
    pub(crate) backlog: usize,
    /// The most bytes that are read from a client.
    pub(crate) piece: usize,
}

/// The most bytes that a pass reads from each client at these places. The fewer clients, the more of each, so that
/// whoever is alone fills batches, and many don't hold each other up.
pub(crate) fn piece_for<S: ReadyStream + Drop>(slots: &[Slot<S>]) -> usize {
    let clients = slots.iter().filter(|slot| slot.has_client()).count();
    MAX_READ / clients.max(1)
}
