ghost use Rattle.std.specs.Prelude.{◌≡◌, ◌-◌};
ghost use Rattle.std.specs.Duration.{as_nanos};
ghost use Rattle.std.specs.Time.{instant_nanos};
ghost use Rattle.audit_serve_door.specs.Idle.{is_before, earlier_of, due_after};

use crate::choice::Taken;
use audit_base::SESSIONS;
use std::time::{Duration, Instant};

/// The client of a place, and when it last moved a byte.
#[derive(Clone, Copy)]
pub(crate) struct Occupancy {
    is_taken: bool,
    // The number in whose order its connection was accepted.
    number: usize,
    only_reads: bool,
    moves: u64,
    since: Instant,
}

/// Which clients may have to make room.
#[derive(Clone, Copy)]
pub(crate) struct Candidates {
    /// Those that only read.
    pub(crate) readers: bool,
    /// All others.
    pub(crate) others: bool,
}

/// The places of the clients, with the time since when each client has been idle.
#[derive(Drop)]
pub(crate) struct Places {
    places: [Occupancy; SESSIONS],
    // How many clients that only read may have a place, and how many others.
    most: usize,
    // How long a client may be idle while another one waits.
    idle: Option<Duration>,
    // The place whose client is to be dismissed.
    due: Option<usize>,
}

impl Places {
    ghost use Rattle.std.specs.Prelude.{◌≡◌, count_by};
    ghost use Rattle.std.specs.List.{list_all};
    ghost use Rattle.audit_serve_door.specs.Idle.{places_held, seated, vacated, is_idle, noted, is_due, is_taken};
    ghost use Rattle.audit_serve_door.specs.Idle.{is_reader, is_other};
    ghost use Rattle.audit_serve_door.specs.Idle.{FindsIdle, ChoosesDue, IsVacant};

    /// Places without clients. `most` is the limit for clients that only read, and for all others. No client is
    /// dismissed before it has been idle for the time `idle`, and without that time none is.
    pub(crate) fn new(most: usize, idle: Option<Duration>, now: Instant) -> Places
        ensures vacant { IsVacant idle result }
        ensures most { result.most ≡ most }
    {
        let vacant = Occupancy {
            is_taken: false,
            number: 0,
            only_reads: false,
            moves: 0,
            since: now,
        };
        Places {
            places: [vacant; SESSIONS],
            most,
            idle,
            due: None,
        }
    }

    /// A client has taken a place.
    pub(crate) fn take(&mut self, place: usize, number: usize, only_reads: bool, now: Instant)
        ensures { self.new ≡ seated place number only_reads now self.old }
    {
        if place < SESSIONS {
            self.places[place] = Occupancy {
                is_taken: true,
                number,
                only_reads,
                moves: 0,
                since: now,
            };
        }
    }

    /// The client of a place has left it. Returns its number.
    pub(crate) fn leave(&mut self, place: usize) -> Option<usize>
        ensures { self.new ≡ vacated place self.old }
    {
        if place >= SESSIONS {
            return None;
        }
        let here = self.places[place];
        self.places[place] = Occupancy {
            is_taken: false,
            ..here
        };
        Some(here.number)
    }

    /// How many places are taken, and by whom.
    pub(crate) fn taken(&self) -> Taken
        ensures { result ≡ places_held self.now }
    {
        Taken {
            readers: self.readers(),
            others: self.others(),
            most: self.most,
        }
    }

    fn readers(&self) -> usize
        ensures { result ≡ count_by is_reader self.now.places }
    {
        self.places
            .iter()
            .filter(|here| here.is_taken && here.only_reads)
            .count()
    }

    fn others(&self) -> usize
        ensures { result ≡ count_by is_other self.now.places }
    {
        self.places
            .iter()
            .filter(|here| here.is_taken && !here.only_reads)
            .count()
    }

    /// Whether each place is taken.
    pub(crate) fn is_full(&self) -> bool
        ensures { result ≡ list_all is_taken self.now.places }
    {
        self.places.iter().all(|here| here.is_taken)
    }

    /// Whether a client with this number has a place, and doesn't only read.
    pub(crate) fn is_other(&self, number: usize) -> bool {
        self.places.iter().any(|here| here.is_taken && here.number == number && !here.only_reads)
    }

    /// Notes how many calls of a client's stream have moved bytes by now. Returns whether none has since the last note.
    pub(crate) fn note(&mut self, place: usize, moves: u64, now: Instant) -> bool
        ensures idle { result ≡ is_idle place moves self.old }
        ensures noted { self.new ≡ noted place moves now self.old }
    {
        if place >= SESSIONS {
            return false;
        }
        let here = self.places[place];
        if here.moves == moves {
            return true;
        }
        self.places[place] = Occupancy {
            moves,
            since: now,
            ..here
        };
        false
    }

    /// Whether the client of this place is to be dismissed.
    pub(crate) fn is_due(&self, place: usize) -> bool
        ensures { result ≡ is_due place self.now }
    {
        match self.due {
            Some(due) => due == place,
            None => false,
        }
    }

    /// Chooses the client that is to be dismissed: of the candidates the one that has been idle for the longest time,
    /// if that is as long as is allowed.
    pub(crate) fn choose(&mut self, candidates: Candidates, now: Instant)
        ensures { ChoosesDue candidates now self.old self.new }
    {
        self.due = due_after(self.idle, self.longest_idle(candidates), now);
    }

    /// When the client that has been idle for the longest time, of the candidates, is to be dismissed.
    pub(crate) fn time_to_dismissal(
        &self,
        candidates: Candidates,
        now: Instant,
    ) -> Option<Duration> {
        let idle = self.idle?;
        let (_, since) = self.longest_idle(candidates)?;
        Some(time_left(idle, since, now))
    }

    /// Of the candidates the place whose client has been idle for the longest time, and since when, if there is one.
    fn longest_idle(&self, candidates: Candidates) -> Option<(usize, Instant)>
        ensures { FindsIdle candidates self.now.places result }
    {
        let mut found: Option<(usize, Instant)> = None;
        for place in 0..SESSIONS {
            found = earlier_of(found, place, self.places[place], candidates);
        }
        found
    }
}

// The place that was found before, or this one if it is a candidate and has been idle for longer.
fn earlier_of(
    found: Option<(usize, Instant)>,
    place: usize,
    here: Occupancy,
    candidates: Candidates,
) -> Option<(usize, Instant)>
    ensures { result ≡ earlier_of found place here candidates }
{
    if is_candidate(here, candidates) && is_before(here.since, found) {
        Some((place, here.since))
    } else {
        found
    }
}

fn is_candidate(here: Occupancy, candidates: Candidates) -> bool
    ensures { result ≡ Rattle.audit_serve_door.specs.Idle.is_candidate candidates here }
{
    here.is_taken
        && if here.only_reads {
            candidates.readers
        } else {
            candidates.others
        }
}

fn is_before(since: Instant, found: Option<(usize, Instant)>) -> bool
    ensures { result ≡ is_before since found }
{
    match found {
        Some((_, earliest)) => !earliest.duration_since(since).is_zero(),
        None => true,
    }
}

// How long it is until a client that has been idle since then has been so for this time.
fn time_left(idle: Duration, since: Instant, now: Instant) -> Duration
    ensures { as_nanos result ≡ as_nanos idle - (instant_nanos now - instant_nanos since) }
{
    idle.saturating_sub(now.duration_since(since))
}

// The place whose client is to be dismissed: the one that was found, if it has been idle for as long as is allowed.
fn due_after(idle: Option<Duration>, found: Option<(usize, Instant)>, now: Instant) -> Option<usize>
    ensures { result ≡ due_after idle found now }
{
    match (idle, found) {
        (Some(idle), Some((place, since))) if time_left(idle, since, now).is_zero() => Some(place),
        _ => None,
    }
}
