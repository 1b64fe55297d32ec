//! Laws of sockets and lines. Each function does nothing: its contract is the law.
ghost use Rattle.std.specs.Prelude.{◌≡◌};
ghost use Rattle.audit_serve_sockets.specs.declared.limits.TheConstants.{MAX_DIGITS};

/// The limit of a line, as a number.
pub fn limits_are_these_numbers()
    ensures digits { MAX_DIGITS ≡ 65536 }
{}
