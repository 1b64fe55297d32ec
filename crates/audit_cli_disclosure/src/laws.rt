//! Laws of disclosures as they are made and shown. Each function does nothing: its contract is the law.
ghost use Rattle.std.specs.Prelude.{◌≡◌, ◌+◌, ◌≤◌, ℕ, List, length};
ghost use Rattle.std.specs.List.{AllByRecursion};
ghost use Rattle.audit_base.specs.declared.limits.TheConstants.{MAX_COUNT};
ghost use Rattle.audit_chain.specs.Event.{EventData, IsEvent};
ghost use Rattle.audit_disclosure.specs.declared.choice.Choice.{Choice};
ghost use Rattle.audit_disclosure.specs.Choosing.{chosen_keys, start_after};
ghost use Rattle.audit_disclosure.specs.DisclosureText.{AreKeysFrom, IsSoundStart};
ghost use Rattle.audit_disclosure.specs.ShownEntries.{parts_from};
ghost use Rattle.audit_verify.specs.State.{StateData};
ghost use Rattle.audit_verify.specs.StateText.{IsSoundState};
ghost use Rattle.audit_cli_offline.specs.declared.report_form.ReportForm.{ReportForm};
ghost use Rattle.audit_cli_disclosure.specs.ShownReport.{chosen_lines, shown_entry_lines};

/// Of an export that is shown by the keys of its chosen entries, each chosen event is printed as a verification prints
/// it, and of each other one its index, its kind and the length of its payload.
pub fn disclosed_exports_show_the_chosen_events()
    ensures { (form : ReportForm) (choice : Choice) (key last_link : List ℕ) (first : ℕ) (events : List EventData)
        → AllByRecursion IsEvent events
        → shown_entry_lines form (chosen_keys choice key first events) first (parts_from key last_link events)
        ≡ chosen_lines form choice first events }
{}

/// The keys of chosen entries of a log, and where the export begins, are a disclosure: its text is read back, as
/// `read_disclosure` promises of all that are so.
pub fn made_disclosures_are_read_back()
    ensures { (choice : Choice) (state : StateData) (events : List EventData) → IsSoundState state
        → state.frontier.count + length events ≤ MAX_COUNT
        → IsSoundStart (start_after state)
        × AreKeysFrom 0 (chosen_keys choice state.key state.frontier.count events) }
{}
