/// What `show` writes of a store.
#[derive(Clone, Copy)]
pub enum ShowForm {
    /// Its commitment, and the state of its log.
    State,
    /// The same, and how many of its sectors are free.
    WithFree,
}
