//! The words that select standard output.
ghost use Rattle.std.specs.Prelude.{◌≡◌};
ghost use Rattle.audit_cli_base.specs.Arguments.{selects_output};

/// The word that selects standard output instead of a file. Nothing else is then written there.
pub const STANDARD_OUTPUT: &str = "-";

// Standard output as a path. It may be a regular file, which must not be replaced by another.
const OUTPUT_DEVICE: &str = "/dev/stdout";

/// Whether a path selects standard output.
pub fn is_standard_output(path: &str) -> bool
    ensures { result ≡ selects_output path.now }
{
    path == STANDARD_OUTPUT || path == OUTPUT_DEVICE
}
