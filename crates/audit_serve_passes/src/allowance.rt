ghost use Rattle.std.specs.Prelude.{◌≡◌};

/// What taking a request may queue, in bytes of replies.
#[derive(Clone, Copy)]
pub struct Demand {
    /// The longest reply that its kind of request can have.
    pub reply: usize,
    /// For a question, the longest reply that this one can have now, as far as that is known.
    pub question: Option<usize>,
}

/// How many bytes of replies may still be queued. The first request is within it, however long its reply.
#[derive(Clone, Copy)]
pub struct Share {
    /// The bytes that are left.
    pub left: usize,
    /// Whether nothing has been taken of it.
    pub is_whole: bool,
}

/// What the next requests of a session may queue: all of them together at most the session's share, and its questions
/// at most what is left of the share that all sessions have for the questions of a pass.
#[derive(Clone, Copy)]
pub struct Allowance {
    /// The session's own share.
    pub session: Share,
    /// The share of the questions of a pass, whoever asks them.
    pub questions: Share,
}

impl Share {
    ghost use Rattle.audit_serve_passes.specs.Allowance.{has_room, share_after};

    /// Whether this many bytes are within it.
    pub fn has_room(self, bytes: usize) -> bool
        ensures { result ≡ has_room self bytes }
    {
        self.is_whole || bytes <= self.left
    }

    /// What is left after this many bytes.
    pub fn after(self, bytes: usize) -> Share
        ensures { result ≡ share_after bytes self }
    {
        Share {
            left: self.left.saturating_sub(bytes),
            is_whole: false,
        }
    }
}

impl Allowance {
    ghost use Rattle.audit_serve_passes.specs.Allowance.{admits, spent};

    /// Whether a request with this demand may be taken.
    pub fn admits(self, demand: Demand) -> bool
        ensures { result ≡ admits self demand }
    {
        match demand.question {
            Some(bytes) => self.session.has_room(demand.reply) && self.questions.has_room(bytes),
            None => self.session.has_room(demand.reply),
        }
    }

    /// What is left after a request with this demand was taken.
    pub fn spent(self, demand: Demand) -> Allowance
        ensures { result ≡ spent demand self }
    {
        Allowance {
            session: self.session.after(demand.reply),
            questions: match demand.question {
                Some(bytes) => self.questions.after(bytes),
                None => self.questions,
            },
        }
    }
}
