use crate::pieces::SearchEnd;

/// What was found of a damaged store.
#[derive(Clone, Copy, Drop)]
pub struct Salvage {
    /// How the search ended.
    pub end: SearchEnd,
    /// How many entries the headers state, if they do.
    pub stated: Option<u64>,
}

impl Salvage {
    ghost use Rattle.std.specs.Prelude.{◌≡◌, Bool};
    ghost use Rattle.audit_cli_salvage.specs.SalvagedText.{missing_entries, is_whole};

    /// How many entries are missing: of those that the headers state, or otherwise of those up to the last one that was
    /// found.
    pub fn missing(&self) -> u64
        ensures { result ≡ missing_entries self.now }
    {
        let due = match self.stated {
            Some(count) => count,
            None => self.end.next,
        };
        due.saturating_sub(self.end.totals.entries)
    }

    /// Whether all entries that the headers state were found, each bound to its place.
    pub fn is_whole(&self) -> bool
        ensures { result ≡ is_whole self.now }
    {
        self.stated.is_some() && self.missing() == 0 && self.end.totals.unbound == 0
    }
}
