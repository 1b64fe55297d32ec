use crate::block::Block;

/// The effect of a call on the medium.
#[derive(Clone, Copy)]
pub(crate) enum Effect {
    Write(usize, Block),
    Sync,
}

/// A call that reached the medium, and the clock after it.
#[derive(Clone, Copy)]
pub(crate) struct Call {
    pub(crate) moment: u64,
    pub(crate) effect: Effect,
}
