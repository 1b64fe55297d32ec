//! The file of a witness: a line for each commitment that it saw, the newest last.
ghost use Rattle.std.specs.Prelude.{◌≡◌, ◌⊎◌, ◌∷◌, ◌++◌, [], ◌+◌, ◌-◌, ◌^◌, ◌<◌, ℕ, List, Some, length, take};
ghost use Rattle.std.specs.Prelude.{IfOk, IfErr, IfSome, OnOk, OnErr};
ghost use Rattle.audit_wire_ask.specs.Keeping.{last_kept};
ghost use Rattle.audit_cli_witness.specs.State.{HoldsState, IsStored, kept_in, line_after};
ghost use Rattle.audit_cli_witness.specs.StateFaults.{HasStateCause, HasReadCause, HasAddCause};
ghost use Rattle.audit_cli_witness.specs.StateFaults.{HasNoBadLine, IsRefusedLine, line_feeds};

use crate::state_lines::{Tail, line_after, tail_in};
use crate::state_text::StateText;
use audit_base::Hash;
use audit_cli_base::CommandError;
use audit_cli_connection::RemoteError;
use audit_proof::Commitment;
use audit_text::split_line;
use audit_wire_ask::Kept;
use std::alloc::Global;

// The most bytes at the end of the file that a look reads and judges.
const TAIL_LEN: u64 = 1 << 16;

/// The file of a witness, open and locked, so that one witness at a time looks by it. Only its end is read, and each
/// line is added at its end.
#[derive(Drop)]
pub struct StateFile<T: StateText> {
    alloc: Global,
    file: T,
    // The commitments in the lines that were read, and in those that were added.
    kept: Vec<Commitment>,
    // The bytes up to the end of the last line, or of what is there of it.
    end: u64,
    lacks_feed: bool,
    ghost holds: { (bytes : List ℕ) → T.text file ≡ Some bytes → HoldsState bytes kept.items end lacks_feed },
}

impl<T: StateText> StateFile<T> {
    /// Reads the end of an open file, which the caller has locked. The newest commitment is that of its last line, but
    /// for one that was cut off. It fails only if a call of the file did, memory was refused, or a line isn't one; and if
    /// one isn't, it fails, with the number of the first such line.
    pub fn read(alloc: Global, file: T) -> Result<StateFile<T>, RemoteError>
        ensures kept { IfOk result (λ state. T.text state.file ≡ T.text file) }
        ensures newest { IfOk result (λ state. (bytes : List ℕ) → T.text file ≡ Some bytes
            → last_kept (kept_in bytes) ≡ last_kept state.kept.items) }
        ensures sound { IfOk result (λ _. IfSome (T.text file) HasNoBadLine) }
        ensures failed { IfErr result (HasReadCause ((last : T) × T.failed last) (T.text file)) }
    {
        let mut file = file;
        let size = file.length()?;
        let tail = match tail_of(alloc, &mut file, size) {
            Ok(tail) => tail,
            Err(fault) => return Err(fault),
        };
        Ok(StateFile {
            alloc,
            file,
            kept: tail.kept,
            end: size.saturating_sub(tail.torn as u64),
            lacks_feed: tail.lacks_feed,
        })
    }
}

impl<T: StateText> Kept for StateFile<T> {
    type Error = RemoteError;

    ghost kept = { λ state. state.kept.items };

    fn newest(&self) -> Option<Commitment> {
        self.kept.last().copied()
    }

    // The line goes after the others, in place of one that was cut off. It is added exactly if the call succeeds that puts
    // and syncs it, which it is unless memory was refused, or the file would have 2^64 bytes.
    fn add(&mut self, seen: &Commitment) -> Result<(), RemoteError>
        ensures done { OnOk result (self.new.kept.items ≡ self.old.kept.items ++ seen.now ∷ []) }
        ensures part { OnErr result ((self.new.kept.items ≡ self.old.kept.items)
            ⊎ (self.new.kept.items ≡ self.old.kept.items ++ seen.now ∷ [])) }
        ensures written { OnOk result (IfSome (T.text self.old.file) (λ bytes. T.text self.new.file
            ≡ Some (take self.old.end bytes ++ line_after self.old.lacks_feed seen.now))) }
        ensures synced { OnOk result (T.synced self.new.file self.old.end
            (line_after self.old.lacks_feed seen.now)) }
        ensures failed { IfErr result (HasAddCause (T.failed self.new.file) self.old.end self.old.lacks_feed seen.now) }
    {
        let seen = stored(seen.count, seen.root);
        let line = line_after(self.alloc, self.lacks_feed, &seen)?;
        let Some(end) = self.end.checked_add(line.len() as u64) else {
            return Err(RemoteError::Command(CommandError::File));
        };
        self.kept.reserve(1)?;
        self.file.replace_from(self.end, &line)?;
        self.kept.push_reserved(seen);
        self.end = end;
        self.lacks_feed = false;
        Ok(())
    }
}

// A commitment: a number of eight bytes, and a hash.
fn stored(count: u64, root: Hash) -> Commitment
    ensures same { result ≡ record { count = count; root = root } }
    ensures stored { IsStored result }
{
    Commitment { count, root }
}

// What the end of a file of this length holds. Of a long file the line in which the end begins is left out.
fn tail_of<T: StateText>(alloc: Global, file: &mut T, size: u64) -> Result<Tail, RemoteError>
    ensures kept { T.text file.new ≡ T.text file.old }
    ensures read { IfOk result (λ tail. IfSome (T.text file.old) (λ bytes. size ≡ length bytes
        → HoldsState bytes tail.kept.items (size - tail.torn) tail.lacks_feed)) }
    ensures sound { IfOk result (λ _. IfSome (T.text file.old) (λ bytes. size ≡ length bytes → HasNoBadLine bytes)) }
    ensures failed { IfErr result (λ fault. HasStateCause (T.failed file.new) fault
        ⊎ ((line : ℕ) × (fault ≡ RemoteError.BadStateLine line)
        × IfSome (T.text file.old) (λ bytes. size ≡ length bytes → IsRefusedLine bytes line))) }
{
    let start = size.saturating_sub(TAIL_LEN);
    let text = file.read_from(alloc, start)?;
    if start == 0 {
        return tail_in(alloc, &text);
    }
    let (_, lines) = split_line(&text);
    match tail_in(alloc, lines) {
        Ok(tail) if !tail.kept.is_empty() => Ok(tail),
        Ok(_) => Err(bad_line(file, start, 1)),
        Err(RemoteError::BadStateLine(line)) => {
            let before = size.saturating_sub(lines.len() as u64);
            Err(bad_line(file, before, line))
        }
        Err(fault) => Err(fault),
    }
}

// The fault of a line that isn't one of a witness: the number of the line, which is counted from a place on.
fn bad_line<T: StateText>(file: &mut T, before: u64, line: u64) -> RemoteError
    ensures kept { T.text file.new ≡ T.text file.old }
    ensures failed { HasStateCause (T.failed file.new) result
        ⊎ ((number : ℕ) × (result ≡ RemoteError.BadStateLine number)
        × IfSome (T.text file.old) (λ bytes. line_feeds (take before bytes) + line < 2 ^ 64
        → number ≡ line_feeds (take before bytes) + line)) }
{
    match file.feeds_before(before) {
        Ok(lines) => RemoteError::BadStateLine(lines.saturating_add(line)),
        Err(error) => error.into(),
    }
}
