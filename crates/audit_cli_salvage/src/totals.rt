/// What a search has come to so far. Each number stops at 2^64 - 1.
#[derive(Clone, Copy, Debug, Drop, PartialEq, Eq)]
pub struct Totals {
    /// How many entries were found.
    pub entries: u64,
    /// How many of them aren't bound to anything: the link before them is lost, and no proof shows them.
    pub unbound: u64,
    /// How many of them a given proof shows.
    pub shown: u64,
    /// How many sectors were passed because a read failed.
    pub unread: u64,
}

impl Totals {
    ghost use Rattle.std.specs.Prelude.{◌≡◌, Bool};
    ghost use Rattle.audit_cli_salvage.specs.Pieces.{no_totals, with_entry, with_unread_sector};

    /// None of anything.
    pub(crate) fn new() -> Totals
        ensures { result ≡ no_totals }
    {
        Totals {
            entries: 0,
            unbound: 0,
            shown: 0,
            unread: 0,
        }
    }

    /// Counts one more entry.
    pub(crate) fn count_entry(&mut self, is_bound: bool, is_shown: bool)
        ensures { self.new ≡ with_entry is_bound is_shown self.old }
    {
        self.entries = self.entries.saturating_add(1);
        if !is_bound {
            self.unbound = self.unbound.saturating_add(1);
        }
        if is_shown {
            self.shown = self.shown.saturating_add(1);
        }
    }

    /// Counts one more sector that couldn't be read.
    pub(crate) fn count_unread(&mut self)
        ensures { self.new ≡ with_unread_sector self.old }
    {
        self.unread = self.unread.saturating_add(1);
    }
}
