//! A core that records the steps that it is asked to do.
ghost use Rattle.std.specs.Prelude.{◌≡◌, ◌<◌, ◌≤◌, ℕ, true, [], ◌∷◌, OnOk, length, map, slice_set};
ghost use Rattle.audit_base.specs.declared.limits.TheConstants.{SESSIONS};
ghost use Rattle.audit_serve_passes.specs.Steps.{a_piece, an_end, a_flush};
ghost use Rattle.audit_serve_passes.specs.Core.{CoreModel, no_bytes, bytes_for};
ghost use Rattle.audit_test_serve.specs.Recorder.{IsRecorderIdle, recorded_owed};
ghost use Rattle.audit_test_serve.specs.RecorderModel.{recorder_model};

use audit_base::SESSIONS;
use audit_serve_passes::{Allowance, Demand, Rights, SessionCore};
use std::alloc::{AllocError, Global};
use std::marker::Model;
use std::mem;
use std::process::Abort;

/// A step that a core was asked to do.
#[derive(Clone, Copy, Debug, PartialEq, Eq)]
pub enum Asked {
    Feed { session: usize, size: usize },
    End { session: usize },
    Flush,
}

// The most steps that are recorded.
const MOST: usize = 64;

/// A core whose sessions end only by `end`. A flush sends one byte to each session that was fed since the flush
/// before: the number of bytes fed so far, over all sessions.
#[derive(Drop)]
pub struct Recorder {
    alloc: Global,
    asked: Vec<Asked>,
    refused: usize,
    ended: [bool; SESSIONS],
    fed: [bool; SESSIONS],
    total: u8,
    outputs: Vec<Vec<u8>>,
}

impl Model for Recorder {
    ghost use Rattle.std.specs.Prelude.{◌≡◌, length, map};
    ghost use Rattle.audit_test_serve.specs.Recorder.{RecorderData};
    ghost use Rattle.audit_base.specs.declared.limits.TheConstants.{SESSIONS};

    ghost Value = { RecorderData };

    ghost view = { λ core. record {
      ended = core.ended;
      fed = core.fed;
      outputs = map (λ output. output.items) core.outputs.items;
    } };

    ghost invariant = { λ core. length core.outputs.items ≡ SESSIONS };
}

fn no_outputs(rt: &impl Abort, alloc: Global) -> Vec<Vec<u8>>
    ensures { length result.items ≡ SESSIONS }
{
    let mut outputs = Vec::with_capacity(alloc, SESSIONS).expect(rt, "memory");
    for _ in 0..SESSIONS {
        outputs.push(Vec::new(alloc)).expect(rt, "memory");
    }
    outputs
}

impl Recorder {
    /// Makes a core that does `refused` steps and refuses the next one.
    pub fn new(rt: &impl Abort, alloc: Global, refused: usize) -> Recorder {
        let outputs = no_outputs(rt, alloc);
        let asked = Vec::with_capacity(alloc, MOST).expect(rt, "memory");
        Recorder {
            alloc,
            asked,
            refused,
            ended: [false; SESSIONS],
            fed: [false; SESSIONS],
            total: 0,
            outputs,
        }
    }

    /// Returns whether the recorded steps are these.
    pub fn was_asked(&self, steps: &[Asked]) -> bool {
        self.asked.as_slice() == steps
    }
}

impl Recorder {
    // Capacity for all recorded steps was reserved by `new`.
    fn ask(&mut self, step: Asked) -> Result<(), AllocError>
        ensures { self.new ≡ self.old }
    {
        if self.refused == 0 {
            return Err(AllocError);
        }
        self.refused -= 1;
        if self.asked.len() < MOST {
            self.asked.push(step)?;
        }
        Ok(())
    }

    fn reply(&mut self) -> Result<(), AllocError>
        ensures ended { self.new.ended ≡ self.old.ended }
        ensures none { OnOk result (IsRecorderIdle self.new) }
        ensures owes { OnOk result ((k : ℕ) → recorded_owed self.new k ≤ recorded_owed self.old k) }
    {
        for session in 0..SESSIONS {
            if self.fed[session] {
                self.outputs[session].push(self.total)?;
                self.fed[session] = false;
            }
        }
        Ok(())
    }

    fn take(&mut self, session: usize, piece: &[u8]) -> Result<(), AllocError>
        requires { session < SESSIONS }
        ensures ended { self.new.ended ≡ self.old.ended }
        ensures outputs { OnOk result (self.new.outputs ≡ self.old.outputs) }
        ensures fed { OnOk result (self.new.fed ≡ slice_set self.old.fed session true) }
    {
        self.ask(Asked::Feed {
            session,
            size: piece.len(),
        })?;
        self.fed[session] = true;
        self.total = self.total.wrapping_add((piece.len() % 256) as u8);
        Ok(())
    }
}

impl SessionCore for Recorder {
    type Error = AllocError;

    ghost model = { recorder_model };

    // Its refusals state nothing.
    ghost refuses = { λ old new error. Unit {0} };

    fn feed(&mut self, session: usize, piece: &[u8]) -> Result<(), AllocError> {
        self.take(session, piece)
    }

    // A piece is a request, whose reply has one byte.
    fn feed_within(
        &mut self,
        session: usize,
        piece: &[u8],
        allowance: &mut Allowance,
    ) -> Result<usize, AllocError> {
        if piece.is_empty() {
            return Ok(0);
        }
        let demand = Demand {
            reply: 1,
            question: None,
        };
        if !allowance.admits(demand) {
            return Ok(0);
        }
        self.take(session, piece)?;
        *allowance = allowance.spent(demand);
        Ok(piece.len())
    }

    fn end(&mut self, session: usize) -> Result<(), AllocError> {
        self.ask(Asked::End { session })?;
        self.ended[session] = true;
        Ok(())
    }

    fn flush(&mut self) -> Result<(), AllocError> {
        self.ask(Asked::Flush)?;
        self.reply()
    }

    fn take_output(&mut self, session: usize) -> Vec<u8> {
        mem::replace(&mut self.outputs[session], Vec::new(self.alloc))
    }

    fn reopen(&mut self, session: usize, _rights: Rights) -> Result<(), AllocError> {
        self.ended[session] = false;
        Ok(())
    }

    fn ended(&self, session: usize) -> bool {
        self.ended[session]
    }

    fn is_cut_off(&self, _session: usize) -> bool {
        false
    }

    ghost refuses_after = { λ old mid new steps taken error did refused. tt };
}
