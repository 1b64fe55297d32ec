use crate::carrying::ConnectionError;
use audit_text::LinesError;
use std::alloc::AllocError;

/// Why a session over lines stopped.
#[derive(Clone, Copy, Debug, PartialEq, Eq)]
pub enum LoopError<E> {
    /// The connection failed, or delivered bytes that weren't sent or that aren't frames.
    Connection,
    /// The lines couldn't be read, the replies couldn't be written, or memory was refused.
    Lines(LinesError),
    /// The line with this number, counted from 1, isn't hex digits, or has too many of them.
    BadLine(u64),
    /// The core refused a step.
    Core(E),
}

impl<E> From<LinesError> for LoopError<E> {
    ghost use Rattle.std.specs.Prelude.{◌≡◌};
    ghost use Rattle.audit_serve_sockets.specs.declared.loop_fault.LoopError.TheVariants.{Lines};

    ghost from_gives = { λ cause fault. fault ≡ Lines cause };

    fn from(fault: LinesError) -> Self {
        LoopError::Lines(fault)
    }
}

impl<E> From<AllocError> for LoopError<E> {
    ghost use Rattle.std.specs.Prelude.{◌≡◌};
    ghost use Rattle.audit_serve_sockets.specs.declared.loop_fault.LoopError.TheVariants.{Lines};
    ghost use Rattle.audit_text.specs.declared.fault.LinesError.TheVariants.{Memory};

    ghost from_gives = { λ _ fault. fault ≡ Lines Memory };

    fn from(_: AllocError) -> Self {
        LoopError::Lines(LinesError::Memory)
    }
}

impl<E> From<ConnectionError> for LoopError<E> {
    ghost use Rattle.std.specs.Prelude.{◌≡◌};
    ghost use Rattle.audit_serve_sockets.specs.declared.loop_fault.LoopError.TheVariants.{Connection};

    ghost from_gives = { λ _ fault. fault ≡ Connection };

    fn from(_: ConnectionError) -> Self {
        LoopError::Connection
    }
}

impl<E> From<RelayError> for LoopError<E> {
    ghost use Rattle.std.specs.Prelude.{◌≡◌};
    ghost use Rattle.audit_serve_sockets.specs.LoopFaults.{of_reply};

    ghost from_gives = { λ given fault. fault ≡ of_reply given };

    fn from(fault: RelayError) -> Self {
        match fault {
            RelayError::Connection => LoopError::Connection,
            RelayError::Lines(fault) => LoopError::Lines(fault),
        }
    }
}

/// Why replies weren't written as lines.
#[derive(Clone, Copy, Debug, PartialEq, Eq)]
pub enum RelayError {
    /// The connection failed, or delivered bytes that weren't sent or that aren't frames.
    Connection,
    /// A line couldn't be written, or memory was refused.
    Lines(LinesError),
}

impl From<ConnectionError> for RelayError {
    ghost use Rattle.std.specs.Prelude.{◌≡◌};
    ghost use Rattle.audit_serve_sockets.specs.declared.loop_fault.RelayError.TheVariants.{Connection};

    ghost from_gives = { λ _ fault. fault ≡ Connection };

    fn from(_: ConnectionError) -> Self {
        RelayError::Connection
    }
}

impl From<LinesError> for RelayError {
    ghost use Rattle.std.specs.Prelude.{◌≡◌};
    ghost use Rattle.audit_serve_sockets.specs.declared.loop_fault.RelayError.TheVariants.{Lines};

    ghost from_gives = { λ cause fault. fault ≡ Lines cause };

    fn from(fault: LinesError) -> Self {
        RelayError::Lines(fault)
    }
}

impl From<AllocError> for RelayError {
    ghost use Rattle.std.specs.Prelude.{◌≡◌};
    ghost use Rattle.audit_serve_sockets.specs.declared.loop_fault.RelayError.TheVariants.{Lines};
    ghost use Rattle.audit_text.specs.declared.fault.LinesError.TheVariants.{Memory};

    ghost from_gives = { λ _ fault. fault ≡ Lines Memory };

    fn from(_: AllocError) -> Self {
        RelayError::Lines(LinesError::Memory)
    }
}
