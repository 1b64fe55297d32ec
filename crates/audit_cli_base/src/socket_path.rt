//! The paths of sockets.
ghost use Rattle.std.specs.Prelude.{◌≡◌, ◌≤◌, Ok, Err, IfErr};
ghost use Rattle.audit_cli_base.specs.SocketPath.{is_socket_path, IsNoSocketPath};
ghost use Rattle.audit_cli_base.specs.declared.socket_path.TheConstants.{MAX_SOCKET_PATH};

use crate::fault::CommandError;

/// The most bytes that the path of a Unix socket may have.
pub const MAX_SOCKET_PATH: usize = 107;

/// Judges a word as the path of a socket, to which `suffix` further bytes are appended. It is one unless it is empty, has
/// a zero byte, or is longer than [`MAX_SOCKET_PATH`] with the suffix: an empty word would be an abstract name, which
/// every user can reach. The only error is `BadArgument`.
pub fn socket_path_asked(word: &str, suffix: usize) -> Result<(), CommandError>
    requires { suffix ≤ MAX_SOCKET_PATH }
    ensures wrong { IsNoSocketPath word.now suffix → result ≡ Err CommandError.BadArgument }
    ensures fault { IfErr result (λ fault. (fault ≡ CommandError.BadArgument) × IsNoSocketPath word.now suffix) }
{
    if is_socket_path(word.as_bytes(), suffix) {
        Ok(())
    } else {
        Err(CommandError::BadArgument)
    }
}

fn is_socket_path(word: &[u8], suffix: usize) -> bool
    requires { suffix ≤ MAX_SOCKET_PATH }
    ensures { result ≡ is_socket_path word.now suffix }
{
    !word.is_empty() && !word.contains(&0) && word.len() <= MAX_SOCKET_PATH - suffix
}
