use audit_serve_passes::Rights;

/// A client that has come.
#[derive(Drop)]
pub struct Newcomer<S> {
    /// Its stream.
    pub stream: S,
    /// What it may ask for.
    pub rights: Rights,
}
