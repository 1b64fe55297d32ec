//! Laws of disclosures. Each function does nothing: its contract is the law.
ghost use Rattle.std.specs.Prelude.{◌≡◌, ◌≢◌, ℕ, List, length};
ghost use Rattle.std.specs.List.{AllByRecursion};
ghost use Rattle.audit_chain.specs.Event.{EventData, IsEvent};
ghost use Rattle.audit_chain.specs.Key.{entry_key};
ghost use Rattle.audit_chain.specs.EntryForm.{sealed_parts};
ghost use Rattle.audit_link.specs.OpenedEntry.{read_under};
ghost use Rattle.audit_disclosure.specs.declared.choice.Choice.{Choice};
ghost use Rattle.audit_disclosure.specs.Choosing.{chosen_keys};
ghost use Rattle.audit_chain.specs.EntryForm.{EntryParts};
ghost use Rattle.audit_disclosure.specs.LinkedEntries.{AreLinkedFrom, last_link_of};
ghost use Rattle.audit_disclosure.specs.SameSealed.{AreSameSealed};
ghost use Rattle.audit_disclosure.specs.ShownEntries.{chosen_events, parts_from, shown_entries};

/// Under the keys of the chosen entries each chosen entry reads as under the first key, and each other one is sealed.
pub fn disclosures_open_the_chosen_entries()
    ensures { (choice : Choice) (key last_link : List ℕ) (first : ℕ) (events : List EventData)
        → AllByRecursion IsEvent events
        → shown_entries (chosen_keys choice key first events) first (parts_from key last_link events)
        ≡ chosen_events choice first events }
{}

/// An entry that reads as another event than the one that was sealed was opened with a key that isn't its own.
pub fn another_event_is_another_key()
    ensures { (key last_link given : List ℕ) (event : EventData) → IsEvent event
        → read_under given (sealed_parts key last_link event) ≢ event → given ≢ entry_key key event.kind }
{}

/// Two exports whose logs end with the same link, and have the same number of entries, have the same kinds and ciphers, or
/// two texts have one SHA-256.
pub fn last_links_fix_sealed_entries()
    ensures { (link : List ℕ) (entries others : List EntryParts) → length link ≡ 32 → AreLinkedFrom link entries
        → AreLinkedFrom link others → length entries ≡ length others
        → last_link_of link entries ≡ last_link_of link others → AreSameSealed link entries others }
{}
