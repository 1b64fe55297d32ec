//! What is seen at the paths of files that are to be replaced.
ghost use Rattle.std.specs.Prelude.{◌≡◌, ℕ, List, true};

use std::fs::{self, Files};

/// Looks at what is at paths. That something there isn't a regular file is a fact: code that is generic over it can
/// have that from the call alone. Every system of files has the call.
pub trait SeenFiles: Files {
    /// What is at this path isn't a regular file.
    ghost is_no_file: { Self → List ℕ → Type 0 };

    /// Whether something is at a path that isn't a regular file.
    fn is_no_file(&self, path: &str) -> bool
        ensures { result ≡ true → is_no_file self.now path.now };
}

impl<F: Files> SeenFiles for F {
    ghost is_no_file = { λ _ _. Unit {0} };

    fn is_no_file(&self, path: &str) -> bool {
        match fs::metadata(self, path) {
            Ok(found) => !found.is_file(),
            Err(_) => false,
        }
    }
}
