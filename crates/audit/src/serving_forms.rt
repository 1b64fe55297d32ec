//! The commands that serve, as the command line and its help show them.
use crate::command_form::{Choice, Form, Word};
use crate::forms::{EXTENDS, WRITER};
use audit_base::SESSIONS;
use audit_cli_daemon::{DEFAULT_IDLE, DEFAULT_RESERVE};
use audit_serve_ready::{DEFAULT_BACKLOG, MAX_BACKLOG};

// The numbers in this file's texts are those of the code.
const _: () = prove!(
    DEFAULT_BACKLOG == 1_048_576
        && MAX_BACKLOG == 67_108_864
        && DEFAULT_IDLE == 60
        && DEFAULT_RESERVE == 1
);

const _: () = prove!(SESSIONS == 16);

static SERVE: Form = Form {
    name: "serve",
    about: "Serves sessions of a store over a socket, in rounds",
    after: None,
    words: &[
        Word {
            name: "FILE",
            help: "The file of the store",
            is_required: true,
        },
        Word {
            name: "SOCKET",
            help: "The path of the socket, which is made",
            is_required: true,
        },
        Word {
            name: "ROUNDS",
            help: "How many rounds",
            is_required: true,
        },
    ],
    options: &[
        Choice {
            name: "sessions",
            value: Some("N"),
            help: "How many sessions each round has, 1 to 16 [default: 1]",
            needs: None,
            excludes: None,
        },
        Choice {
            name: "socket-mode",
            value: Some("MODE"),
            help: "The permissions of the socket, 600 to 677 in octal digits [default: 600]",
            needs: None,
            excludes: None,
        },
    ],
};

static LOOP: Form = Form {
    name: "loop",
    about: "Serves one session over a socket, whose frames come as lines of hex digits from standard input",
    after: None,
    words: &[
        Word {
            name: "FILE",
            help: "The file of the store",
            is_required: true,
        },
        Word {
            name: "SOCKET",
            help: "The path of the socket, which is made",
            is_required: true,
        },
    ],
    options: &[Choice {
        name: "socket-mode",
        value: Some("MODE"),
        help: "The permissions of the socket, 600 to 677 in octal digits [default: 600]",
        needs: None,
        excludes: None,
    }],
};

static DAEMON: Form = Form {
    name: "daemon",
    about: "Serves a store over a socket to clients that come and go, until it is stopped",
    after: None,
    words: &[
        Word {
            name: "FILE",
            help: "The file of the store",
            is_required: true,
        },
        Word {
            name: "SOCKET",
            help: "The path of the socket, which is made",
            is_required: true,
        },
    ],
    options: &[
        Choice {
            name: "reader",
            value: Some("PATH"),
            help: "The path of a further socket, whose clients may only read",
            needs: None,
            excludes: None,
        },
        Choice {
            name: WRITER,
            value: Some("KIND:PATH"),
            help: "A further socket, whose clients may append events of KIND alone; no others may; up to 15 times",
            needs: None,
            excludes: None,
        },
        Choice {
            name: "allow-close",
            value: None,
            help: "Clients of SOCKET may close the log",
            needs: None,
            excludes: None,
        },
        Choice {
            name: "idle",
            value: Some("SECONDS"),
            help: "How long a client may move no byte while another one waits; 0 for ever [default: 60]",
            needs: None,
            excludes: None,
        },
        Choice {
            name: "backlog",
            value: Some("BYTES"),
            help: "How many bytes of replies are kept for a client, at most 67108864 [default: 1048576]",
            needs: None,
            excludes: None,
        },
        Choice {
            name: "reserve",
            value: Some("N"),
            help: "Leaves N sectors free after the log, which a close may use [default: 1]",
            needs: None,
            excludes: None,
        },
        Choice {
            name: "until-free",
            value: Some("N"),
            help: "Ends at the first event that would leave fewer than N sectors free, and doesn't answer it",
            needs: None,
            excludes: None,
        },
        Choice {
            name: "socket-mode",
            value: Some("MODE"),
            help: "The permissions of the sockets, 600 to 677 in octal digits [default: 600]",
            needs: None,
            excludes: None,
        },
        Choice {
            name: EXTENDS,
            value: Some("STATE"),
            help: "Only if the log extends the newest commitment in the file of a witness; else nothing is written",
            needs: None,
            excludes: None,
        },
    ],
};

static STOP: Form = Form {
    name: "stop",
    about: "Stops the daemon at a socket, waits for its end, and exits with its status",
    after: None,
    words: &[Word {
        name: "SOCKET",
        help: "The path of the daemon's socket",
        is_required: true,
    }],
    options: &[],
};

/// The commands that serve, and the one that stops a daemon.
pub(crate) fn serving_forms() -> [&'static Form; 4] {
    [&SERVE, &LOOP, &DAEMON, &STOP]
}
