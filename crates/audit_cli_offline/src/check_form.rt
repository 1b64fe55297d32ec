/// What is printed of an accepted proof.
#[derive(Clone, Copy, Debug, PartialEq, Eq)]
pub enum CheckForm {
    /// That it is accepted.
    Judgment,
    /// The same, and then what it is about.
    Contents,
}
