//! The commands on a store, as the command line and its help show them.
use crate::command_form::{Choice, Form, Word};
use crate::forms::{EXTENDS, LINK, PREPARED};
use audit_base::MAX_PAYLOAD;
use audit_log::{MAX_SECTORS, MIN_SECTORS};
use audit_text::INPUT_LIMIT;

// The input limits, in the help of the commands that read events.
const LIMITS: &str =
    "An event has a payload of at most 32696 bytes, and the input has at most 16777216 bytes.";

// The same, for `append`.
const APPEND_LIMITS: &str =
    "An event has a payload of at most 32696 bytes, and the input has at most 16777216 bytes. With --follow the input has no limit.";

// The numbers in this file's texts are those of the code.
const _: () = prove!(MAX_PAYLOAD == 32_696 && INPUT_LIMIT == 16_777_216);

const _: () = prove!(MIN_SECTORS == 3 && MAX_SECTORS == 16_777_216);

static REPLAY: Form = Form {
    name: "replay",
    about: "Seals events from standard input, and prints their entries and the commitment",
    after: Some(LIMITS),
    words: &[],
    options: &[],
};

static FORMAT: Form = Form {
    name: "format",
    about: "Makes a file, and formats it for a store of no events",
    after: None,
    words: &[
        Word {
            name: "FILE",
            help: "The file to be made",
            is_required: true,
        },
        Word {
            name: "SECTORS",
            help: "Its size in sectors of 512 bytes, 3 to 16777216",
            is_required: true,
        },
        Word {
            name: "KEYFILE",
            help: "The file with the first key, in 64 hex digits",
            is_required: true,
        },
    ],
    options: &[
        Choice {
            name: "mode",
            value: Some("MODE"),
            help: "The permissions of the file, 600 to 677 in octal digits [default: 600]",
            needs: None,
            excludes: Some("in-place"),
        },
        Choice {
            name: "in-place",
            value: None,
            help: "Formats a file or a block device that is there, of SECTORS or more",
            needs: None,
            excludes: None,
        },
        Choice {
            name: "erase",
            value: None,
            help: "With --in-place: even if FILE holds something",
            needs: Some("in-place"),
            excludes: None,
        },
    ],
};

static APPEND: Form = Form {
    name: "append",
    about: "Appends events from standard input, and prints a line for each batch",
    after: Some(APPEND_LIMITS),
    words: &[Word {
        name: "FILE",
        help: "The file of the store",
        is_required: true,
    }],
    options: &[
        Choice {
            name: "text",
            value: Some("KIND"),
            help: "Each line is the payload of an event of KIND, 0 to 4294967294",
            needs: None,
            excludes: None,
        },
        Choice {
            name: "follow",
            value: None,
            help: "Appends lines as they come, and prints the line of each batch at once",
            needs: None,
            excludes: None,
        },
        Choice {
            name: "long",
            value: Some("HOW"),
            help: "With --text, cut or refuse a line of more than 32696 bytes [default: refuse]",
            needs: Some("follow"),
            excludes: None,
        },
        Choice {
            name: "expect",
            value: Some("COUNT"),
            help: "Appends nothing if the store has another count",
            needs: None,
            excludes: None,
        },
        Choice {
            name: "reserve",
            value: Some("N"),
            help: "Leaves N sectors free after the log [default: 0, with --follow 1]",
            needs: None,
            excludes: None,
        },
        Choice {
            name: EXTENDS,
            value: Some("STATE"),
            help: "Only if the log extends the newest commitment in the file of a witness; else nothing is written",
            needs: None,
            excludes: None,
        },
    ],
};

static ROTATE: Form = Form {
    name: "rotate",
    about: "Closes the log of a store, and begins a new store with its last commitment",
    after: Some("If it is interrupted, run it again with the same words."),
    words: &[
        Word {
            name: "OLD",
            help: "The file of the store whose log is closed",
            is_required: true,
        },
        Word {
            name: "NEW",
            help: "The file to be made for the new store",
            is_required: true,
        },
        Word {
            name: "SECTORS",
            help: "Its size in sectors of 512 bytes, 3 to 16777216",
            is_required: true,
        },
        Word {
            name: "KEYFILE",
            help: "The file with its first key, in 64 hex digits",
            is_required: true,
        },
    ],
    options: &[
        Choice {
            name: PREPARED,
            value: None,
            help: "NEW is an empty store that 'format' made, and SECTORS and KEYFILE are left out",
            needs: Some("link"),
            excludes: Some("SECTORS"),
        },
        Choice {
            name: "link",
            value: Some("LINK"),
            help: "The file to be made for the link from OLD to NEW, which 'check --link' reads",
            needs: Some(PREPARED),
            excludes: None,
        },
        Choice {
            name: "after",
            value: Some("LINK0"),
            help: "The file with the link by which OLD goes on from the log before it",
            needs: Some(PREPARED),
            excludes: None,
        },
        Choice {
            name: EXTENDS,
            value: Some("STATE"),
            help: "Only if OLD's log extends the newest commitment in the file of a witness; else nothing is changed",
            needs: None,
            excludes: None,
        },
    ],
};

static CLOSE: Form = Form {
    name: "close",
    about: "Closes the log of a store: its last entry says so, and no key is kept",
    after: Some("Nothing can be appended to a closed log."),
    words: &[Word {
        name: "FILE",
        help: "The file of the store",
        is_required: true,
    }],
    options: &[],
};

static SHOW: Form = Form {
    name: "show",
    about: "Prints the commitment of a store, and where it stands",
    after: None,
    words: &[Word {
        name: "FILE",
        help: "The file of the store",
        is_required: true,
    }],
    options: &[
        Choice {
            name: "read-only",
            value: None,
            help: "Opens the store without the right to write: nothing is repaired",
            needs: None,
            excludes: None,
        },
        Choice {
            name: "free",
            value: None,
            help: "Prints a line with the number of free sectors, too",
            needs: None,
            excludes: None,
        },
        Choice {
            name: "header",
            value: None,
            help: "Reads the two header sectors alone, also while another program has the store open",
            needs: None,
            excludes: Some("read-only"),
        },
    ],
};

static PROVE: Form = Form {
    name: "prove",
    about: "Writes a proof of a store's history to a file",
    after: None,
    words: &[
        Word {
            name: "FILE",
            help: "The file of the store",
            is_required: true,
        },
        Word {
            name: "KIND",
            help: "member or increment",
            is_required: true,
        },
        Word {
            name: "A",
            help: "The number of the event, or the older count",
            is_required: true,
        },
        Word {
            name: "B",
            help: "The count, or the newer one",
            is_required: true,
        },
        Word {
            name: "OUT",
            help: "The file for the proof, which is replaced; - for standard output",
            is_required: true,
        },
    ],
    options: &[Choice {
        name: "read-only",
        value: None,
        help: "Opens the store without the right to write: nothing is repaired",
        needs: None,
        excludes: None,
    }],
};

static EXPORT: Form = Form {
    name: "export",
    about: "Writes the entries of a store to a file",
    after: None,
    words: &[
        Word {
            name: "FILE",
            help: "The file of the store",
            is_required: true,
        },
        Word {
            name: "OUT",
            help: "The file for the entries, which is replaced; - for standard output",
            is_required: true,
        },
    ],
    options: &[
        Choice {
            name: "read-only",
            value: None,
            help: "Opens the store without the right to write: nothing is repaired",
            needs: None,
            excludes: None,
        },
        Choice {
            name: "salvage",
            value: None,
            help: "Opens the store as --read-only does; of a damaged one, the entries that can still be read",
            needs: None,
            excludes: None,
        },
        Choice {
            name: "from",
            value: Some("INDEX"),
            help: "Writes the entries from this index on alone",
            needs: None,
            excludes: Some("salvage"),
        },
    ],
};

static SALVAGE: Form = Form {
    name: "salvage",
    about: "Searches a damaged store with the first key, and writes every event that it still finds",
    after: None,
    words: &[
        Word {
            name: "FILE",
            help: "The file of the store, which is only read",
            is_required: true,
        },
        Word {
            name: "KEYFILE",
            help: "The file with the log's first key",
            is_required: true,
        },
        Word {
            name: "OUT",
            help: "The file for the events, which is replaced; - for standard output",
            is_required: true,
        },
    ],
    options: &[
        Choice {
            name: "within",
            value: Some("N"),
            help: "Finds what is behind a hole of at most N entries (65536)",
            needs: None,
            excludes: None,
        },
        Choice {
            name: "under",
            value: Some("COMMIT"),
            help: "The commitment under which the proofs are accepted, as COUNT:ROOT, or @FILE with a note",
            needs: None,
            excludes: None,
        },
        Choice {
            name: "proof",
            value: Some("PROOF"),
            help: "A file with an inclusion proof of an entry; may be given more than once",
            needs: Some("under"),
            excludes: None,
        },
    ],
};

/// The commands that make a store, append to it, and answer from it.
pub(crate) fn store_forms() -> [&'static Form; 9] {
    [
        &REPLAY, &FORMAT, &APPEND, &ROTATE, &CLOSE, &SHOW, &PROVE, &EXPORT, &SALVAGE,
    ]
}
