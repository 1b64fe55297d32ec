//! How long a server that isn't there is tried again.
ghost use Rattle.std.specs.Prelude.{◌≡◌, IfErr};
ghost use Rattle.audit_cli_base.specs.declared.fault.CommandError.TheVariants.{File};
ghost use Rattle.audit_cli_connection.specs.declared.fault.RemoteError.TheVariants.{Command};

use audit_cli_connection::RemoteError;
use std::io::Write;
use std::thread;
use std::time::{Clock, Duration, Instant};

// The time between two tries, in milliseconds.
const PAUSE: u64 = 200;

/// The time since which a server isn't there, if it isn't.
#[derive(Clone, Copy)]
pub struct Outage {
    // How many seconds it is tried again; not at all if absent.
    limit: Option<u64>,
    begun: Option<Instant>,
}

impl Outage {
    /// None yet. It may last as many seconds.
    pub fn within(limit: Option<u64>) -> Outage {
        Outage { limit, begun: None }
    }

    /// The server was there.
    pub fn end(&mut self) {
        self.begun = None;
    }

    /// Whether there is another try after this fault, before which it pauses. The first fault of an outage is printed.
    /// It fails only if the clock does.
    pub fn lasts<F: Clock, M: Write>(
        &mut self,
        rt: &F,
        fault: RemoteError,
        messages: &mut M,
    ) -> Result<bool, RemoteError>
        ensures { IfErr result (λ fault. fault ≡ Command File) }
    {
        let Some(limit) = self.limit else {
            return Ok(false);
        };
        if !fault.is_passing() {
            return Ok(false);
        }
        let begun = match self.begun {
            Some(begun) => begun,
            None => {
                let _ = fault.report(messages);
                Instant::now(rt)?
            }
        };
        self.begun = Some(begun);
        if begun.elapsed(rt)? >= Duration::from_secs(limit) {
            return Ok(false);
        }
        thread::sleep(rt, Duration::from_millis(PAUSE));
        Ok(true)
    }
}
