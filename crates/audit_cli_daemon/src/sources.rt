//! Sources: kinds of events that are bound to sockets of their own.
ghost use Rattle.std.specs.Prelude.{◌≡◌, ℕ, Bool, true, false, IfOk, IfErr, option_map};
ghost use Rattle.audit_serve_passes.specs.Rights.{is_bound};
ghost use Rattle.audit_cli_daemon.specs.Sources.{source_shown, source_in, sources_in, words_of, has_kind};
ghost use Rattle.audit_cli_daemon.specs.Sources.{are_no_sources, kinds_bound};

use audit_cli_base::{CommandError, socket_path_asked};
use audit_serve_passes::BoundKinds;
use audit_text::kind_in_word;
use std::alloc::{AllocError, Global};

/// A source of events: their kind, and the path of the socket for its clients, which append events of that kind alone.
#[derive(Clone, Copy)]
pub struct Source<'a> {
    /// The kind.
    pub kind: u32,
    /// The path.
    pub path: &'a str,
}

/// The source that a word asks for: a kind, a colon, and the path of a socket.
pub fn source_in(word: &str) -> Option<Source<'_>>
    ensures { option_map source_shown result ≡ source_in word.now }
{
    let (kind, path) = word.split_once(':')?;
    let kind = kind_in_word(kind.as_bytes())?;
    match socket_path_asked(path, 0) {
        Ok(()) => Some(Source { kind, path }),
        Err(_) => None,
    }
}

/// Judges the words for sources, and returns the kinds that they bind. At most 15 kinds can be bound, each to one
/// source. The only error is `BadArgument`.
pub(crate) fn kinds_bound_by(words: &[&str]) -> Result<BoundKinds, CommandError>
    ensures right { IfOk result (λ bound. are_no_sources (words_of words.now) ≡ false) }
    ensures fault { IfErr result (λ fault. (fault ≡ CommandError.BadArgument)
        × (are_no_sources (words_of words.now) ≡ true)) }
    ensures bound { IfOk result (λ bound. (kind : ℕ)
        → is_bound bound kind ≡ has_kind (sources_in (words_of words.now)) kind) }
{
    let mut bound = BoundKinds::none();
    for word in words {
        let Some(source) = source_in(word) else {
            return Err(CommandError::BadArgument);
        };
        if bound.contains(source.kind) {
            return Err(CommandError::BadArgument);
        }
        let Some(more) = bound.with(source.kind) else {
            return Err(CommandError::BadArgument);
        };
        bound = more;
    }
    Ok(bound)
}

/// Returns the kinds of the sources that the words ask for, in order. The only error is that memory is refused.
pub(crate) fn kinds_of_sources(alloc: Global, words: &[&str]) -> Result<Vec<u32>, AllocError>
    ensures { IfOk result (λ kinds. kinds.items ≡ kinds_bound (sources_in (words_of words.now))) }
{
    let mut kinds = Vec::with_capacity(alloc, words.len())?;
    for word in words {
        if let Some(source) = source_in(word) {
            kinds.push_reserved(source.kind);
        }
    }
    Ok(kinds)
}
