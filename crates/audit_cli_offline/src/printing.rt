//! What is printed of a verified export.
ghost use Rattle.std.specs.Prelude.{◌≡◌};
ghost use Rattle.audit_cli_offline.specs.Printing.{is_printed};

use crate::report_form::ReportForm;
use std::marker::Model;

/// How the events of a verified export are printed, and which of them. All are verified and counted.
#[derive(Drop)]
pub struct Printing {
    form: ReportForm,
    kinds: Vec<u32>,
    from: u64,
}

impl Model for Printing {
    ghost use Rattle.audit_cli_offline.specs.Printing.{PrintingData};

    ghost Value = { PrintingData };

    ghost view = { λ p. record { form = p.form; kinds = p.kinds.items; from = p.from } };
}

impl Printing {
    /// Prints in this form the events from this index on that are of one of these kinds, or of any kind if there are
    /// none.
    pub fn new(form: ReportForm, kinds: Vec<u32>, from: u64) -> Printing
        ensures { result ≡ record { form = form; kinds = kinds.items; from = from } }
    {
        Printing { form, kinds, from }
    }

    /// The form of the events that are printed.
    pub fn form(&self) -> ReportForm
        ensures { result ≡ self.now.form }
    {
        self.form
    }

    // Whether an event with this index and of this kind is printed.
    pub(crate) fn prints(&self, index: u64, kind: u32) -> bool
        ensures { result ≡ is_printed self.now index kind }
    {
        index >= self.from && (self.kinds.is_empty() || self.kinds.contains(&kind))
    }
}
