ghost use Rattle.std.specs.Prelude.{◌≡◌, ◌==◌, position};
ghost use Rattle.std.specs.List.{before_first, after_first};
ghost use Rattle.audit_text.specs.Lines.{IsCutInLines};

/// Splits bytes at the first `byte`, which is in neither part. If there is none, all bytes are in the first part.
pub fn split_at_first(bytes: &[u8], byte: u8) -> (&[u8], &[u8])
    ensures before { result.0.now ≡ before_first (λ b. b == byte) bytes.now }
    ensures after { result.1.now ≡ after_first (λ b. b == byte) bytes.now }
{
    match first_place(bytes, byte) {
        Some(place) => (&bytes[..place], &bytes[place + 1..]),
        None => (bytes, &bytes[bytes.len()..]),
    }
}

/// The first line of some bytes, without its line feed, and the bytes after it.
pub fn split_line(bytes: &[u8]) -> (&[u8], &[u8])
    ensures { IsCutInLines bytes.now result.0.now result.1.now }
{
    split_at_first(bytes, b'\n')
}

fn first_place(bytes: &[u8], byte: u8) -> Option<usize>
    ensures { result ≡ position (λ b. b == byte) bytes.now }
{
    bytes.iter().position(|b| *b == byte)
}
