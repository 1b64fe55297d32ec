//! The commands of an auditor, as the command line and its help show them.
use crate::command_form::{Choice, Form, Word};
use crate::forms::{DISCLOSED, EVENTS};

static CHECK: Form = Form {
    name: "check",
    about: "Checks a proof under a commitment, or under an older and a newer one",
    after: None,
    words: &[
        Word {
            name: "PROOF",
            help: "The file with the proof",
            is_required: true,
        },
        Word {
            name: "OLDER",
            help: "The commitment, as COUNT:ROOT, or @FILE with a note",
            is_required: true,
        },
        Word {
            name: "NEWER",
            help: "The newer commitment, for an incremental proof or a link",
            is_required: false,
        },
    ],
    options: &[
        Choice {
            name: "link",
            value: None,
            help: "PROOF is a link: from OLDER, the last commitment of a log, to NEWER, the second of the log that goes on",
            needs: None,
            excludes: Some("key"),
        },
        Choice {
            name: "print",
            value: None,
            help: "Prints a line with what an accepted proof is about, too",
            needs: None,
            excludes: Some("key"),
        },
        Choice {
            name: "key",
            value: Some("HEX"),
            help: "Prints the event of an accepted inclusion proof, opened with the key of its receipt",
            needs: None,
            excludes: Some("print"),
        },
        Choice {
            name: "text",
            value: None,
            help: "Prints the event's payload alone, as a line of text",
            needs: Some("key"),
            excludes: Some("json"),
        },
        Choice {
            name: "json",
            value: None,
            help: "Prints the event as a line with an object of JSON",
            needs: Some("key"),
            excludes: Some("text"),
        },
    ],
};

static NOTE: Form = Form {
    name: "note",
    about: "Prints a note: the name of a log and its commitment, as lines to be signed and kept",
    after: None,
    words: &[
        Word {
            name: "NAME",
            help: "The name of the log, 1 to 255 bytes of ASCII without spaces",
            is_required: true,
        },
        Word {
            name: "COMMIT",
            help: "The commitment, as COUNT:ROOT, or @FILE with a note",
            is_required: true,
        },
    ],
    options: &[],
};

static VERIFY: Form = Form {
    name: "verify",
    about: "Verifies an export of a store, and prints its events",
    after: None,
    words: &[
        Word {
            name: "EXPORT",
            help: "The file with the export",
            is_required: true,
        },
        Word {
            name: "KEYFILE",
            help: "The file with the first key, in 64 hex digits, or with the STATE that EXPORT follows; see --disclosed",
            is_required: true,
        },
        Word {
            name: "COMMIT",
            help: "The commitment to the whole log, as COUNT:ROOT, or @FILE with a note",
            is_required: true,
        },
    ],
    options: &[
        Choice {
            name: "text",
            value: None,
            help: "Prints each payload as a line of text, and nothing else; the last line goes to standard error",
            needs: None,
            excludes: None,
        },
        Choice {
            name: "numbers",
            value: None,
            help: "With --text: index and kind before each payload, with a tab after each",
            needs: Some("text"),
            excludes: Some("json"),
        },
        Choice {
            name: "json",
            value: None,
            help: "Prints each event as a line of JSON; the last line goes to standard error",
            needs: None,
            excludes: Some("text"),
        },
        Choice {
            name: "kind",
            value: Some("K[,K..]"),
            help: "Prints the events of these kinds alone, each 0 to 4294967295; all are verified",
            needs: None,
            excludes: Some(DISCLOSED),
        },
        Choice {
            name: "from",
            value: Some("INDEX"),
            help: "Prints the events from this index on alone; all are verified",
            needs: None,
            excludes: Some(DISCLOSED),
        },
        Choice {
            name: "save",
            value: Some("STATE"),
            help: "In the end, saves in a file the state from which a later export is verified",
            needs: None,
            excludes: Some(DISCLOSED),
        },
        Choice {
            name: DISCLOSED,
            value: None,
            help: "KEYFILE is an OUT of 'disclose': the events that it opens are printed, the others are sealed",
            needs: None,
            excludes: None,
        },
    ],
};

static DISCLOSE: Form = Form {
    name: "disclose",
    about: "Verifies an export, and makes a file with keys that open some of its events and no others",
    after: Some(
        "'verify EXPORT OUT COMMIT --disclosed' shows them to somebody who has no key of the log.",
    ),
    words: &[
        Word {
            name: "EXPORT",
            help: "The file with the export",
            is_required: true,
        },
        Word {
            name: "KEYFILE",
            help: "The file with the first key, in 64 hex digits, or with the STATE that EXPORT follows",
            is_required: true,
        },
        Word {
            name: "COMMIT",
            help: "The commitment to the whole log, as COUNT:ROOT, or @FILE with a note",
            is_required: true,
        },
        Word {
            name: "OUT",
            help: "The file to be made for the keys",
            is_required: true,
        },
    ],
    options: &[
        Choice {
            name: "kind",
            value: Some("K[,K..]"),
            help: "The events of these kinds, each 0 to 4294967295",
            needs: None,
            excludes: Some(EVENTS),
        },
        Choice {
            name: EVENTS,
            value: Some("N[,N-M..]"),
            help: "The events with these indices",
            needs: None,
            excludes: Some("kind"),
        },
    ],
};

/// The commands that need no store.
pub(crate) fn auditor_forms() -> [&'static Form; 4] {
    [&CHECK, &NOTE, &VERIFY, &DISCLOSE]
}
