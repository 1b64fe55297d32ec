//! Laws of text. Each function does nothing: its contract is the law.
ghost use Rattle.std.specs.Prelude.{◌≡◌, ◌≤◌, ◌<◌, ◌^◌, ◌≢◌, ℕ, List, Some, map, length};
ghost use Rattle.std.specs.List.{AllByRecursion, flat_map};
ghost use Rattle.audit_base.specs.Bytes.{AreBytes};
ghost use Rattle.audit_base.specs.declared.limits.TheConstants.{MAX_PAYLOAD, RESERVED_KIND};
ghost use Rattle.audit_text.specs.declared.input.TheConstants.{INPUT_LIMIT};
ghost use Rattle.audit_text.specs.declared.line_form.LineForm.TheVariants.{Text};
ghost use Rattle.audit_text.specs.LineEvents.{AreEventsOf, text_event};
ghost use Rattle.audit_text.specs.PrintedText.{text_line, read_back};
ghost use Rattle.audit_text.specs.NumberedEvent.{NumberedEvent, IsNumbered};
ghost use Rattle.audit_text.specs.NumberedText.{numbered_text, events_of_numbered};
ghost use Rattle.audit_text.specs.JsonLine.{json_line, events_of_json};
ghost use Rattle.audit_text.specs.CutLines.{cut_line};
ghost use Rattle.audit_text.specs.ShownText.{IsSeen, IsPlainLetter, shown_letter};

/// The limit of an input, as a number.
pub fn limits_are_these_numbers()
    ensures input { INPUT_LIMIT ≡ 2 ^ 24 }
{}

/// Payloads that were printed as lines are read back from them, whatever bytes they have.
pub fn printed_payloads_are_read_back()
    ensures { (payloads : List (List ℕ)) → AllByRecursion AreBytes payloads
        → read_back (flat_map text_line payloads) ≡ payloads }
{}

/// Events that were printed with their numbers are read back from their lines, whatever bytes their payloads have: from
/// lines of text, and from lines of JSON, each of which is an object of RFC 8259.
pub fn printed_events_are_read_back()
    ensures text { (events : List NumberedEvent) → AllByRecursion IsNumbered events
        → events_of_numbered (flat_map numbered_text events) ≡ map (λ event. Some event) events }
    ensures json { (events : List NumberedEvent) → AllByRecursion IsNumbered events
        → events_of_json (flat_map json_line events) ≡ map (λ event. Some event) events }
{}

/// The events of a text are its lines: one event a line, with the bytes of the line as its payload.
pub fn events_of_a_text_are_its_lines()
    ensures { (kind : ℕ) (lines : List (List ℕ)) → kind ≢ RESERVED_KIND
        → AllByRecursion (λ (line : List ℕ). length line ≤ MAX_PAYLOAD) lines
        → AreEventsOf (Text kind) lines (map (text_event kind) lines) }
{}

/// A line that was cut is the payload of an event, whatever its length and its hash.
pub fn lines_that_were_cut_are_payloads()
    ensures { (start hash : List ℕ) (size : ℕ) → size < 2 ^ 64 → length hash ≡ 32
        → length (cut_line start size hash) ≤ MAX_PAYLOAD }
{}

/// A text that is printed for people has no letter that isn't seen, and one that has none is printed as it is.
pub fn shown_texts_are_seen()
    ensures seen { (letters : List ℕ) → AllByRecursion IsSeen (flat_map shown_letter letters) }
    ensures same { (letters : List ℕ) → AllByRecursion IsPlainLetter letters → flat_map shown_letter letters ≡ letters }
{}
