//! The law of requests to a server. The function does nothing: its contract is the law.
ghost use Rattle.std.specs.Prelude.{◌≡◌};
ghost use Rattle.audit_cli_client.specs.declared.arguments.TheConstants.{MAX_SECONDS, MAX_WINDOW};
ghost use Rattle.audit_cli_client.specs.declared.request.TheConstants.{TIMEOUT, WINDOW};

/// The limits of seconds and lines, and what they are without a word, as numbers.
pub fn limits_are_these_numbers()
    ensures seconds { MAX_SECONDS ≡ 86400 }
    ensures window { MAX_WINDOW ≡ 1024 }
    ensures default_seconds { TIMEOUT ≡ 30 }
    ensures default_window { WINDOW ≡ 64 }
{}
