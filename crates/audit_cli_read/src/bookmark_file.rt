//! The file that holds a bookmark.
ghost use Rattle.std.specs.Prelude.{◌≡◌, ◌⊎◌, Option, Some, List, ℕ, IfSome, OnOk, OnErr};

use audit_cli_base::CommandError;

/// A file that holds from where a log is read on.
pub trait BookmarkFile {
    /// Its bytes, where they are known.
    ghost bytes: { Self → Option (List ℕ) };

    /// Puts bytes in place of those that it has. It returns once they would outlast a stop of the machine. After an
    /// error it has the old ones or these, and never a part.
    fn replace(&mut self, text: &[u8]) -> Result<(), CommandError>
        ensures done { OnOk result (IfSome (bytes self.old) (λ _. bytes self.new ≡ Some text.now)) }
        ensures failed { OnErr result (IfSome (bytes self.old)
            (λ old. (bytes self.new ≡ Some old) ⊎ (bytes self.new ≡ Some text.now))) };
}
