//! The commands that ask a server, as the command line and its help show them.
use crate::command_form::{Choice, Form, Word};
use crate::forms::LINK;

static SEND: Form = Form {
    name: "send",
    about: "Sends events from standard input to a server, and prints a line for each answer",
    after: Some("An event has a payload of at most 32696 bytes. The input has no limit."),
    words: &[Word {
        name: "SOCKET",
        help: "The path of the server's socket",
        is_required: true,
    }],
    options: &[
        Choice {
            name: "text",
            value: Some("KIND"),
            help: "Each line is the payload of an event of KIND, 0 to 4294967294",
            needs: None,
            excludes: None,
        },
        Choice {
            name: "long",
            value: Some("HOW"),
            help: "With --text, cut or refuse a line of more than 32696 bytes [default: refuse]",
            needs: None,
            excludes: Some("placed"),
        },
        Choice {
            name: "window",
            value: Some("N"),
            help: "How many events are sent ahead of their answers, 1 to 1024 [default: 64]",
            needs: None,
            excludes: None,
        },
        Choice {
            name: "timeout",
            value: Some("SECONDS"),
            help: "How long the server has for each reply, 1 to 86400 [default: 30]",
            needs: None,
            excludes: None,
        },
        Choice {
            name: "until-refused",
            value: None,
            help: "Stops at the first refusal; the events that are on their way are still answered",
            needs: None,
            excludes: None,
        },
        Choice {
            name: "placed",
            value: None,
            help: "With --text, has each event appended at its place among those of KIND alone, or not at all",
            needs: Some("text"),
            excludes: None,
        },
        Choice {
            name: "from",
            value: Some("PLACE"),
            help: "With --placed, the place of the first line, from 0 on [default: the next, as the server says]",
            needs: Some("placed"),
            excludes: None,
        },
        Choice {
            name: "receipts",
            value: Some("FILE"),
            help: "With --placed, appends the key of each event's entry to FILE; it opens that event alone",
            needs: Some("placed"),
            excludes: None,
        },
        Choice {
            name: "retry",
            value: Some("SECONDS"),
            help: "Tries a server that is lost again for 1 to 86400 seconds; without --placed an event may be there twice",
            needs: None,
            excludes: None,
        },
    ],
};

static ASK: Form = Form {
    name: "ask",
    about: "Asks a server for its commitment or state, a kind's place, an entry, a proof or an export, or to close the log",
    after: Some(
        "Questions: commitment | state | place KIND | entry INDEX OUT | member INDEX COUNT OUT | increment OLDER NEWER OUT | export OUT | close",
    ),
    words: &[
        Word {
            name: "SOCKET",
            help: "The path of the server's socket",
            is_required: true,
        },
        Word {
            name: "QUESTION",
            help: "commitment, state, place, entry, member, increment, export or close",
            is_required: true,
        },
        Word {
            name: "A",
            help: "The first word of the question: a number, or OUT",
            is_required: false,
        },
        Word {
            name: "B",
            help: "The second word of the question: a number, or OUT",
            is_required: false,
        },
        Word {
            name: "C",
            help: "The third word of the question: OUT",
            is_required: false,
        },
    ],
    options: &[
        Choice {
            name: "from",
            value: Some("INDEX"),
            help: "Writes the entries of an export from this index on alone",
            needs: None,
            excludes: None,
        },
        Choice {
            name: "timeout",
            value: Some("SECONDS"),
            help: "How long the server has for each reply, 1 to 86400 [default: 30]",
            needs: None,
            excludes: None,
        },
    ],
};

static WATCH: Form = Form {
    name: "watch",
    about: "Asks a server for its commitment, and keeps it in a file if the log has only grown",
    after: None,
    words: &[
        Word {
            name: "SOCKET",
            help: "The path of the server's socket",
            is_required: true,
        },
        Word {
            name: "STATE",
            help: "The file with a COUNT:ROOT a line, the newest last",
            is_required: true,
        },
        Word {
            name: LINK,
            help: "The link from the log of the option --after",
            is_required: false,
        },
    ],
    options: &[
        Choice {
            name: "after",
            value: Some("FILE"),
            help: "Begins STATE after FILE, the STATE of the log before, by a link from it",
            needs: Some(LINK),
            excludes: None,
        },
        Choice {
            name: "every",
            value: Some("SECONDS"),
            help: "Looks again every SECONDS, 1 to 86400, and prints only changes",
            needs: None,
            excludes: None,
        },
        Choice {
            name: "timeout",
            value: Some("SECONDS"),
            help: "How long the server has for each reply, 1 to 86400 [default: 30]",
            needs: None,
            excludes: None,
        },
        Choice {
            name: "quiet",
            value: None,
            help: "Prints neither `same` nor `grew`",
            needs: None,
            excludes: None,
        },
    ],
};

static READ: Form = Form {
    name: "read",
    about: "Reads a server's log on from a state, verifies its events and prints them",
    after: Some(
        "STATE has the key of the next entry. It is replaced once the events before it are printed, so that after a stop at most those of one piece are printed again, with their indices.",
    ),
    words: &[
        Word {
            name: "SOCKET",
            help: "The path of the server's socket",
            is_required: true,
        },
        Word {
            name: "STATE",
            help: "The file with the state, which is replaced",
            is_required: true,
        },
    ],
    options: &[
        Choice {
            name: "first",
            value: Some("KEYFILE"),
            help: "Without STATE, reads from the start of the log with this first key",
            needs: None,
            excludes: None,
        },
        Choice {
            name: "under",
            value: Some("FILE"),
            help: "The log has to extend the last commitment of a witness in FILE, too",
            needs: None,
            excludes: None,
        },
        Choice {
            name: "text",
            value: None,
            help: "Prints each payload as a line of text, and nothing else",
            needs: None,
            excludes: Some("json"),
        },
        Choice {
            name: "numbers",
            value: None,
            help: "With --text, puts the index and the kind before each payload",
            needs: Some("text"),
            excludes: Some("json"),
        },
        Choice {
            name: "json",
            value: None,
            help: "Prints each event as a line with an object of JSON",
            needs: None,
            excludes: None,
        },
        Choice {
            name: "kind",
            value: Some("K,K.."),
            help: "Prints the events of these kinds alone",
            needs: None,
            excludes: None,
        },
        Choice {
            name: "every",
            value: Some("SECONDS"),
            help: "Reads on every SECONDS, 1 to 86400, and prints nothing where nothing is new",
            needs: None,
            excludes: None,
        },
        Choice {
            name: "timeout",
            value: Some("SECONDS"),
            help: "How long the server has for each reply, 1 to 86400 [default: 30]",
            needs: None,
            excludes: None,
        },
    ],
};

/// The commands that ask a server.
pub fn remote_forms() -> [&'static Form; 4] {
    [&SEND, &ASK, &WATCH, &READ]
}
