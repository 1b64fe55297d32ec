//! Listening sockets whose accepting doesn't wait.
ghost use Rattle.std.specs.Prelude.{ℤ, OnOk, OnErr};
ghost use Rattle.std.specs.Net.Unix.{unix_listener_raw_fd};

use std::io;
use std::net::Net;
use std::os::unix::net::UnixListener;

/// The call after which accepting at a listening socket doesn't wait. That it was made is a fact of the socket's
/// descriptor, and so is that it failed: code that is generic over the system can have them from the call alone. Every
/// system of sockets has this call.
pub trait PromptListening {
    /// Accepting at the socket of this descriptor doesn't wait.
    ghost prompt: { Self → ℤ → Type 0 };

    /// A call failed.
    ghost unprompted: { Self → Type 0 };

    /// Has accepting at a listening socket fail with `WouldBlock` instead of waiting.
    fn accept_promptly(&self, listener: &UnixListener) -> io::Result<()>
        ensures prompt { OnOk result (prompt self.now (unix_listener_raw_fd listener.now)) }
        ensures failed { OnErr result (unprompted self.now) };
}

impl<F: Net> PromptListening for F {
    ghost prompt = { λ _ _. Unit {0} };

    ghost unprompted = { λ _. Unit {0} };

    fn accept_promptly(&self, listener: &UnixListener) -> io::Result<()> {
        listener.set_nonblocking(true)
    }
}
