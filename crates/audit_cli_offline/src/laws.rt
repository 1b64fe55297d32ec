//! Laws of reports, and of what keys open. Each function does nothing: its contract is the law, which may stand on
//! another one.
ghost use Rattle.std.specs.Prelude.{◌≡◌, ◌⊎◌, ◌+◌, ◌^◌, ◌<◌, ◌≤◌, Bool, ℕ, List, Some, length, map};
ghost use Rattle.std.specs.List.{AllByRecursion};
ghost use Rattle.audit_chain.specs.Event.{EventData, IsEvent};
ghost use Rattle.audit_chain.specs.Key.{entry_key};
ghost use Rattle.audit_chain.specs.Entry.{sealed_entry};
ghost use Rattle.audit_chain.specs.EntryForm.{sealed_parts};
ghost use Rattle.audit_text.specs.PrintedText.{read_back};
ghost use Rattle.audit_text.specs.NumberedEvent.{NumberedEvent};
ghost use Rattle.audit_text.specs.NumberedText.{events_of_numbered};
ghost use Rattle.audit_text.specs.JsonLine.{events_of_json};
ghost use Rattle.audit_cli_offline.specs.declared.report_form.ReportForm.TheVariants.{Text, Numbered, Json};
ghost use Rattle.audit_cli_offline.specs.OpenedEntry.{IsEntryOf, KeysCollide, read_under};
ghost use Rattle.audit_cli_offline.specs.Printing.{PrintingData};
ghost use Rattle.audit_cli_offline.specs.ReportLines.{report_lines, printed_events};

use audit_chain::laws::chain_keeps_its_sizes;
use audit_text::laws::printed_events_are_read_back;

/// A report in text is read back to the payloads of the events that it prints, whatever bytes they have.
pub fn text_reports_are_read_back()
    ensures { (printing : PrintingData) (first : ℕ) (events : List EventData) (closed : Bool)
        → printing.form ≡ Text → AllByRecursion IsEvent events
        → read_back (report_lines printing first events closed)
        ≡ map (λ (event : NumberedEvent). event.payload) (printed_events printing first events) }
{}

/// A report with indices is read back to the events that it prints, whatever bytes their payloads have: in numbered
/// text and in JSON.
pub fn numbered_reports_are_read_back()
    ensures text { (printing : PrintingData) (first : ℕ) (events : List EventData) (closed : Bool)
        → printing.form ≡ Numbered → AllByRecursion IsEvent events → first + length events ≤ 2 ^ 64
        → events_of_numbered (report_lines printing first events closed)
        ≡ map (λ event. Some event) (printed_events printing first events) }
    ensures json { (printing : PrintingData) (first : ℕ) (events : List EventData) (closed : Bool)
        → printing.form ≡ Json → AllByRecursion IsEvent events → first + length events ≤ 2 ^ 64
        → events_of_json (report_lines printing first events closed)
        ≡ map (λ event. Some event) (printed_events printing first events) }
{
    printed_events_are_read_back();
}

/// The key of an entry's keystream, which a placed append's acknowledgement has, opens this entry: it reads as the
/// event that was sealed. It opens no other one: if the keys of two entries are equal, these have one kind and were
/// sealed under one key of the chain, or two texts have one SHA-256.
pub fn keys_open_their_entries()
    ensures opens { (key last_link : List ℕ) (event : EventData) → IsEvent event
        → IsEntryOf (sealed_entry key last_link event) (sealed_parts key last_link event)
        × (read_under (entry_key key event.kind) (sealed_parts key last_link event) ≡ event) }
    ensures alone { (key other : List ℕ) (kind other_kind : ℕ) → kind < 2 ^ 32 → other_kind < 2 ^ 32
        → entry_key key kind ≡ entry_key other other_kind
        → ((key ≡ other) × (kind ≡ other_kind)) ⊎ KeysCollide key kind other other_kind }
{
    chain_keeps_its_sizes();
}
