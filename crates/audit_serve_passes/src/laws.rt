//! Laws of serving. Each function does nothing: its contract is the law.
ghost use Rattle.std.specs.Prelude.{◌≡◌};
ghost use Rattle.audit_serve_passes.specs.declared.limits.TheConstants.{MAX_PIECE, MAX_TURNS};

/// The limits, as numbers.
pub fn limits_are_these_numbers()
    ensures piece { MAX_PIECE ≡ 4096 }
    ensures turns { MAX_TURNS ≡ 1048576 }
{}
