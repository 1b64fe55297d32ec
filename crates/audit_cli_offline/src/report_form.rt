/// How an event of a verified export is printed.
#[derive(Clone, Copy, Debug, PartialEq, Eq)]
pub enum ReportForm {
    /// As a line with its index, its kind and its payload in hex digits. After the events follows a line with their
    /// number and whether they close the log.
    Events,
    /// As its payload, a line of text, and nothing else.
    Text,
    /// As a line of text with its index, its kind and its payload, and a tab between them.
    Numbered,
    /// As a line with an object of JSON.
    Json,
}
