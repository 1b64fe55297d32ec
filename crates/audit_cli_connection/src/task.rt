use audit_text::{LineForm, LongLines};
use audit_wire_ask::{Placing, StopAt};

/// How events are sent.
#[derive(Clone, Copy)]
pub struct Task<'a> {
    /// How lines have their events.
    pub form: LineForm,
    /// What becomes of lines that are too long.
    pub long: LongLines,
    /// The most lines that are sent ahead of their answers.
    pub window: u64,
    /// How many seconds an answer is waited for.
    pub seconds: u64,
    /// Where sending stops.
    pub stop_at: StopAt,
    /// The places that the events are given.
    pub placing: Placing,
    /// The file to which the keys of placed events are appended, if they are kept.
    pub keys: Option<&'a str>,
    /// How many seconds a server that is lost is tried again, if so.
    pub retry: Option<u64>,
}
