//! A door by which clients come to a daemon in memory and go at random.
ghost use Rattle.audit_serve_ready.specs.Door.{unknown_door};

use crate::random::Random;
use crate::streams::stream_of;
use crate::visitor::Visitor;
use audit_serve_passes::Rights;
use audit_serve_ready::{Departure, Door, Newcomer, Next};
use sha2::{Digest, Sha256};
use std::alloc::{AllocError, Global};

// How many clients come.
const CLIENTS: u64 = 40;

// How many more pauses there may be after serving was stopped.
const LAST_PAUSES: u64 = 5;

/// The door of a run, with a digest of what it was told.
#[derive(Drop)]
pub struct RandomDoor {
    alloc: Global,
    random: Random,
    // How many frames of twenty are appends.
    appends: u64,
    came: u64,
    went: u64,
    pauses: u64,
    // Whether nobody was found who comes, since the last pause: then nobody comes before the next one.
    is_quiet: bool,
    // After this many pauses serving is stopped.
    until: u64,
    hasher: Sha256,
    gone: Vec<Visitor>,
}

impl RandomDoor {
    pub fn new(alloc: Global, mut random: Random) -> RandomDoor {
        let until = random.below(300).saturating_add(10);
        let appends = random.below(8);
        RandomDoor {
            alloc,
            random,
            appends,
            came: 0,
            went: 0,
            pauses: 0,
            is_quiet: false,
            until,
            hasher: Sha256::new(),
            gone: Vec::new(alloc),
        }
    }

    /// The digest of what it was told, to which more may be added.
    pub fn into_hasher(self) -> Sha256 {
        self.hasher
    }

    /// The clients that have gone.
    pub fn gone(&self) -> &[Visitor] {
        &self.gone
    }

    fn new_visitor(&mut self) -> Result<Visitor, AllocError> {
        let random = Random::new(self.random.next());
        let frames = self.random.up_to(6);
        let bytes = stream_of(self.alloc, &mut self.random, frames, self.appends)?;
        Ok(Visitor::new(self.alloc, self.came, random, bytes))
    }

    fn note(&mut self, what: u8, place: usize) {
        self.hasher.update(&[what, (place & 0xff) as u8]);
    }
}

impl Door for RandomDoor {
    ghost calls = { unknown_door };

    type Stream = Visitor;

    fn next_client(&mut self, place: usize) -> Option<Newcomer<Visitor>> {
        if self.is_quiet {
            return None;
        }
        if self.came >= CLIENTS || self.random.below(4) == 0 {
            self.is_quiet = true;
            return None;
        }
        let visitor = self.new_visitor().ok()?;
        self.came = self.came.saturating_add(1);
        self.note(1, place);
        Some(Newcomer {
            stream: visitor,
            rights: Rights::all(),
        })
    }

    fn dismisses(&mut self, _place: usize, _client: &Visitor) -> bool {
        self.random.below(100) == 0
    }

    fn lets_reply(&mut self) -> bool {
        true
    }

    fn asks_again(&mut self, found: bool) -> bool {
        self.note(4, usize::from(found));
        self.random.below(4) > 0
    }

    fn gone(&mut self, place: usize, client: Visitor, departure: Departure) {
        self.went = self.went.saturating_add(1);
        self.note(2, place);
        self.hasher.update(&[code_of(departure)]);
        client.add_to(&mut self.hasher);
        // For want of memory serving is stopped.
        if self.gone.push(client).is_err() {
            self.until = 0;
        }
    }

    fn pause(&mut self, moved: bool) -> Next {
        self.pauses = self.pauses.saturating_add(1);
        self.is_quiet = false;
        self.note(3, usize::from(moved));
        let is_over = self.pauses >= self.until.saturating_add(LAST_PAUSES);
        if is_over || self.pauses == self.until || self.went >= CLIENTS {
            Next::Stop
        } else {
            Next::Again
        }
    }
}

fn code_of(departure: Departure) -> u8 {
    match departure {
        Departure::Finished => 0,
        Departure::Malformed => 1,
        Departure::ReadFailed => 2,
        Departure::WriteFailed => 3,
        Departure::CutOff => 4,
        Departure::Dismissed => 5,
        Departure::Memory => 6,
    }
}
