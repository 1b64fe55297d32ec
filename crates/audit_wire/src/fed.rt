/// What a decoder found in a piece of the stream.
#[derive(Clone, Copy, Debug, PartialEq, Eq)]
pub enum Fed {
    /// The whole piece was taken, and no body is complete.
    More,
    /// A body is complete. Its last byte is the last of the `taken` bytes of the piece.
    Body { taken: usize },
    /// A length is 0 or over the limit. Its second byte is the last of the `taken` bytes.
    Malformed { taken: usize },
}
