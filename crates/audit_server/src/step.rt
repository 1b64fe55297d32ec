/// A step of a core. Session numbers are below 16.
#[derive(Clone, Copy, Debug, Drop)]
pub enum Step<'a> {
    /// Feeds the next bytes of a session.
    Feed { session: usize, piece: &'a [u8] },
    /// Ends a session.
    End { session: usize },
    /// Flushes: what waits is committed and answered.
    Flush,
}
