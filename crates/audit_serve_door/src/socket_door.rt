ghost use Rattle.std.specs.Prelude.{◌≡◌, map, Some, None};
ghost use Rattle.std.specs.declared.time.Instant.{Instant};
ghost use Rattle.audit_serve_ready.specs.declared.next.Next.TheVariants as next;
ghost use Rattle.audit_serve_door.specs.Finishing.{IsFinishingTime, IsOver};
ghost use Rattle.audit_serve_door.specs.Entrances.{rights_of, mode_of, socket_of};
ghost use Rattle.audit_serve_door.specs.Waits.{NoArrival, ChangesWaiters};
ghost use Rattle.audit_serve_door.specs.Comings.{Receives, candidates_at};

use crate::accepts::{Accepts, Watched};
use crate::choice::next_entry;
use crate::entrance::{Arrival, Entrance};
use crate::incoming::Accepted;
use crate::journal::Journal;
use crate::limits::{
    MAX_ACCEPTED, MAX_ORDERS, MOST_OF_A_SIDE, finishing_time, gathering_time, looking_time,
    retry_time,
};
use crate::metered::Metered;
use crate::nonblocking::Nonblocking;
use crate::places::{Candidates, Places};
use crate::prompt::Prompt;
use crate::stop_orders::StopOrders;
use crate::waiting::Waiting;
use crate::watch::Watch;
use audit_base::SESSIONS;
use audit_serve_passes::Rights;
use audit_serve_ready::{Departure, Door, Newcomer, Next};
use mio::{Events, Poll, Registry, Token};
use std::alloc::Global;
use std::io::{self, ErrorKind};
use std::net::Net;
use std::time::{Clock, Duration, Instant};

// The token of the socket for orders to stop. Those of the entrances follow.
const STOP: usize = 0;

const FIRST_ENTRANCE: usize = STOP + 1;

// The first number of a client's connection. They rise in the order of acceptance.
const FIRST_CLIENT: usize = 1 << 32;

// The first number of a connection for orders.
const FIRST_ORDER: usize = 1 << 62;

// How many events a pause takes at most.
const MAX_EVENTS: usize = 256;

/// Where the clients of a daemon come in: Unix sockets, and one on which orders to stop come.
///
/// Whoever comes is accepted at once, and waits outside until it has sent something. Places go in the order of
/// acceptance ([`next_entry`]). While one that has sent something waits for a place, the client that has been idle for
/// the longest time is dismissed, if that time is over the limit. If the system gives no further descriptor, the oldest
/// connection that has sent nothing is dropped. A pause takes no processor time while nothing happens.
#[derive(Drop)]
pub struct SocketDoor<'a, C, J, W, L, S> {
    clock: &'a C,
    journal: J,
    watch: W,
    poll: Poll,
    events: Events,
    entrances: Vec<Entrance<L>>,
    orders: StopOrders,
    // A descriptor for an order to stop when there is no other.
    spare: Option<Registry>,
    waiting: Waiting<S>,
    places: Places,
    // The number of the next connection for orders, and that of the next client.
    next_order: usize,
    next_client: usize,
    // Whether a connection couldn't be accepted in the last pause.
    is_short: bool,
    now: Instant,
    // When a reading last found something.
    found: Instant,
    // When it was last looked whether the store is in its place.
    looked: Instant,
    // After the order to stop: until when clients may take their replies.
    until: Option<Instant>,
    has_failed: bool,
    is_replaced: bool,
}

impl<'a, C, J, W, L, S> SocketDoor<'a, C, J, W, L, S>
where
    C: Clock,
    J: Journal + Drop,
    W: Watch + Drop,
    L: Accepts<S> + Watched + Drop,
    S: Prompt + Watched + Drop,
{
    ghost use Rattle.std.specs.Prelude.{◌≡◌, ◌⊎◌, [], ◌∷◌, map, true, false, not, ◌||◌, IfOk, IfSome, IfNone, IsSome};
    ghost use Rattle.std.specs.Prelude.{Some, None};
    ghost use Rattle.std.specs.declared.time.Instant.{Instant};
    ghost use Rattle.audit_serve_door.specs.Finishing.{IsFinishingTime};
    ghost use Rattle.audit_serve_ready.specs.declared.departure.Departure.TheVariants.{Memory};
    ghost use Rattle.audit_serve_door.specs.Entrances.{rights_of, rights_of_door, idle_of_door};
    ghost use Rattle.audit_serve_door.specs.Entrances.{mode_of, modes_of_door, socket_of, sockets_of_door};
    ghost use Rattle.audit_serve_door.specs.Notes.{a_note};
    ghost use Rattle.audit_serve_door.specs.Waits.{NobodyWaits, NoArrival, Passes, ChangesWaiters};
    ghost use Rattle.audit_serve_door.specs.Comings.{IsClientOf, Receives, KeepsWaiters, who_waits, places_of};
    ghost use Rattle.audit_serve_door.specs.Comings.{candidates_of, was_told, watch_of, is_replaced, has_failed};
    ghost use Rattle.audit_serve_door.specs.Comings.{flags_of, orders_of, journal_of};
    ghost use Rattle.audit_serve_passes.specs.Rights.{only_reads};
    ghost use Rattle.audit_serve_door.specs.Idle.{seated, vacated, ChoosesDue, IsVacant};

    /// Makes a door with these entrances: those of clients that only read come before the others. A client that moves
    /// no byte for the time `idle` is dismissed when another one waits; without that time no client is. No reply leaves
    /// once the watch has found that what is served isn't in its place. Errors are those of the system, and
    /// `OutOfMemory`.
    pub fn new(
        net: &impl Net,
        clock: &'a C,
        alloc: Global,
        entrances: Vec<Entrance<L>>,
        orders: StopOrders,
        idle: Option<Duration>,
        journal: J,
        watch: W,
    ) -> io::Result<SocketDoor<'a, C, J, W, L, S>>
        ensures rights { IfOk result (λ door. rights_of_door door ≡ map rights_of entrances.items) }
        ensures modes { IfOk result (λ door. modes_of_door door ≡ map mode_of entrances.items) }
        ensures idle { IfOk result (λ door. idle_of_door door ≡ idle) }
        ensures sockets { IfOk result (λ door. sockets_of_door door ≡ map socket_of entrances.items) }
        ensures nobody { IfOk result (λ door. NobodyWaits (who_waits door)) }
        ensures vacant { IfOk result (λ door. IsVacant idle (places_of door)) }
        ensures in_place { IfOk result (λ door. is_replaced door ≡ false) }
        ensures works { IfOk result (λ door. has_failed door ≡ false) }
    {
        let mut entrances = entrances;
        let mut orders = orders;
        let poll = Poll::new(net)?;
        register_all(poll.registry(), &mut orders, &mut entrances)?;
        let now = Instant::now(clock)?;
        let Ok(events) = Events::with_capacity(alloc, MAX_EVENTS) else {
            return Err(io::Error::from(ErrorKind::OutOfMemory));
        };
        let has_readers = entrances
            .iter()
            .any(|entrance| entrance.rights().only_reads());
        let most = if has_readers {
            MOST_OF_A_SIDE
        } else {
            SESSIONS
        };
        Ok(SocketDoor {
            clock,
            journal,
            watch,
            poll,
            events,
            entrances,
            orders,
            spare: None,
            waiting: Waiting::new(alloc),
            places: Places::new(most, idle, now),
            next_order: FIRST_ORDER,
            next_client: FIRST_CLIENT,
            is_short: false,
            now,
            found: now,
            looked: now,
            until: None,
            has_failed: false,
            is_replaced: false,
        })
    }

    /// Whether serving ended because the system's readiness or clock failed, without an order.
    pub fn has_failed(&self) -> bool
        ensures { result ≡ has_failed self.entry.now }
    {
        self.has_failed
    }

    /// Whether what is served isn't in its place, now or when it was last looked.
    pub fn is_replaced(&mut self) -> bool
        ensures found { result ≡ true → (is_replaced self.old ≡ true) ⊎ W.left (watch_of self.new) }
        ensures noted { is_replaced self.old ≡ true → result ≡ true }
        ensures kept { KeepsWaiters self.old self.new }
        ensures failed { has_failed self.new ≡ has_failed self.old }
    {
        self.is_replaced || !self.look()
    }

    /// Whether an order to stop has come.
    pub fn was_told(&self) -> bool
        ensures { result ≡ was_told self.entry.now }
    {
        self.orders.has_come()
    }

    /// Begins the time in which clients may take their replies, as an order to stop does, unless it has begun. From now on
    /// a pause lets nobody in, and says to stop once that time is over.
    pub fn begin_end(&mut self)
        ensures begun { (flags_of self.old).0 ≡ None → (now : Instant) × IsFinishingTime now (flags_of self.new).0 }
        ensures kept { (last : Instant) → (flags_of self.old).0 ≡ Some last → (flags_of self.new).0 ≡ Some last }
        ensures noted { (flags_of self.new).1 ≡ (flags_of self.old).1 }
    {
        let ending = finish(self.until, self.now);
        self.until = ending.0;
    }

    /// Closes the door, and returns its orders to stop, which are to be answered, and its journal.
    pub fn close(self) -> (StopOrders, J)
        ensures orders { result.0 ≡ orders_of self.entry }
        ensures journal { result.1 ≡ journal_of self.entry }
    {
        (self.orders, self.journal)
    }

    // Looks whether what is served is in its place.
    fn look(&mut self) -> bool
        ensures kept { KeepsWaiters self.old self.new }
        ensures places { self.new.places ≡ self.old.places }
        ensures failed { self.new.has_failed ≡ self.old.has_failed }
        ensures replaced { self.new.is_replaced ≡ (self.old.is_replaced || not result) }
        ensures found { result ≡ false → W.left self.new.watch }
    {
        let is_in_place = self.watch.is_in_place();
        self.is_replaced |= !is_in_place;
        is_in_place
    }

    // Accepts the connections that may bring an order. One that can't be accepted takes the spare descriptor.
    fn accept_orders(&mut self)
        ensures entrances { self.new.entrances ≡ self.old.entrances }
        ensures turned { ChangesWaiters J.notes NoArrival self.old.waiting self.new.waiting
            self.old.journal self.new.journal }
        ensures flags { flags_of self.new ≡ flags_of self.old }
        ensures places { self.new.places ≡ self.old.places }
    {
        self.keep_spare();
        for _ in 0..MAX_ORDERS {
            if !self.accept_order() {
                return;
            }
        }
    }

    fn keep_spare(&mut self)
        ensures kept { KeepsWaiters self.old self.new }
        ensures flags { flags_of self.new ≡ flags_of self.old }
        ensures places { self.new.places ≡ self.old.places }
    {
        if self.spare.is_none() {
            self.spare = self.poll.registry().try_clone().ok();
        }
    }

    // Accepts a connection that may bring an order, or makes room for it. Returns whether there may be a further one.
    fn accept_order(&mut self) -> bool
        ensures entrances { self.new.entrances ≡ self.old.entrances }
        ensures turned { ChangesWaiters J.notes NoArrival self.old.waiting self.new.waiting
            self.old.journal self.new.journal }
        ensures flags { flags_of self.new ≡ flags_of self.old }
        ensures places { self.new.places ≡ self.old.places }
    {
        match self.orders.incoming.accept() {
            Accepted::One(stream) => {
                self.next_order = self.next_order.wrapping_add(1);
                self.orders
                    .admit(stream, self.next_order, self.poll.registry());
                true
            }
            Accepted::NoneLeft => false,
            Accepted::Failed => self.make_room(),
        }
    }

    // Gives a descriptor back: the spare one, or that of the oldest connection that has sent nothing. Returns whether
    // there was one.
    fn make_room(&mut self) -> bool
        ensures entrances { self.new.entrances ≡ self.old.entrances }
        ensures turned { ChangesWaiters J.notes NoArrival self.old.waiting self.new.waiting
            self.old.journal self.new.journal }
        ensures flags { flags_of self.new ≡ flags_of self.old }
        ensures places { self.new.places ≡ self.old.places }
    {
        if self.spare.take().is_some() {
            return true;
        }
        if self.drop_silent() {
            return true;
        }
        self.is_short = true;
        false
    }

    // Accepts whoever has come. What came by a later entrance gets the lower numbers, since somebody may have come
    // there, left, and come again by an earlier one.
    fn accept_clients(&mut self)
        ensures received { Receives L.model J.notes self.old.entrances.items self.new.entrances.items
            self.old.waiting self.new.waiting self.old.journal self.new.journal }
        ensures flags { flags_of self.new ≡ flags_of self.old }
        ensures places { self.new.places ≡ self.old.places }
    {
        let entrances = self.entrances.len();
        for place in 0..entrances {
            let later = entrances - 1 - place;
            self.accept_at(
                place,
                self.next_client
                    .wrapping_add(later.wrapping_mul(MAX_ACCEPTED)),
            );
        }
        self.next_client = self
            .next_client
            .wrapping_add(entrances.wrapping_mul(MAX_ACCEPTED));
    }

    // Accepts who has come by an entrance, and numbers them from here.
    fn accept_at(&mut self, place: usize, first: usize)
        ensures received { Receives L.model J.notes self.old.entrances.items self.new.entrances.items
            self.old.waiting self.new.waiting self.old.journal self.new.journal }
        ensures flags { flags_of self.new ≡ flags_of self.old }
        ensures places { self.new.places ≡ self.old.places }
    {
        for at in 0..MAX_ACCEPTED {
            if !self.accept_one(place, first.wrapping_add(at)) {
                return;
            }
        }
    }

    // Accepts a connection that has come by an entrance. Returns whether there was one; it waits under this number.
    fn accept_one(&mut self, place: usize, number: usize) -> bool
        ensures received { Receives L.model J.notes self.old.entrances.items self.new.entrances.items
            self.old.waiting self.new.waiting self.old.journal self.new.journal }
        ensures flags { flags_of self.new ≡ flags_of self.old }
        ensures places { self.new.places ≡ self.old.places }
    {
        for _ in 0..2 {
            if place >= self.entrances.len() {
                return false;
            }
            match self.entrances[place].accept() {
                Accepted::One(arrival) => {
                    self.admit(number, arrival);
                    return true;
                }
                Accepted::NoneLeft => return false,
                Accepted::Failed => {
                    if !self.drop_silent() {
                        self.is_short = true;
                        return false;
                    }
                }
            }
        }
        self.is_short = true;
        false
    }

    // Drops the oldest connection that has sent nothing. Returns whether there was one.
    fn drop_silent(&mut self) -> bool
        ensures entrances { self.new.entrances ≡ self.old.entrances }
        ensures turned { ChangesWaiters J.notes NoArrival self.old.waiting self.new.waiting
            self.old.journal self.new.journal }
        ensures flags { flags_of self.new ≡ flags_of self.old }
        ensures places { self.new.places ≡ self.old.places }
    {
        let is_dropped = self.waiting.drop_silent();
        if is_dropped {
            self.journal.note_silent();
        }
        is_dropped
    }

    fn admit(&mut self, number: usize, mut arrival: Arrival<S>)
        ensures entrances { self.new.entrances ≡ self.old.entrances }
        ensures waits { ChangesWaiters J.notes (λ one. one ≡ arrival) self.old.waiting self.new.waiting
            self.old.journal self.new.journal }
        ensures flags { flags_of self.new ≡ flags_of self.old }
        ensures places { self.new.places ≡ self.old.places }
    {
        let registry = self.poll.registry();
        if arrival.register(registry, Token(number)).is_err() {
            self.journal.note(Departure::Memory);
            return;
        }
        if !self.waiting.admit(number, arrival) {
            self.journal.note(Departure::Memory);
        }
    }

    // Notes that the client of a place has left it.
    fn leave(&mut self, place: usize)
        ensures entrances { self.new.entrances ≡ self.old.entrances }
        ensures journal { self.new.journal ≡ self.old.journal }
        ensures flags { flags_of self.new ≡ flags_of self.old }
        ensures places { self.new.places ≡ vacated place self.old.places }
        ensures stay { Passes NoArrival [] self.old.waiting self.new.waiting }
    {
        let Some(number) = self.places.leave(place) else {
            return;
        };
        self.waiting.forget(number);
    }

    // Gives a place to a connection, unless the system refuses to report on it.
    fn seat(
        &mut self,
        place: usize,
        number: usize,
        mut arrival: Arrival<S>,
    ) -> Option<Newcomer<Metered<Nonblocking<S>>>>
        ensures client { IfSome result (λ newcomer. IsClientOf arrival newcomer) }
        ensures entrances { self.new.entrances ≡ self.old.entrances }
        ensures waiting { IsSome result → self.new.waiting ≡ self.old.waiting }
        ensures journal { IsSome result → self.new.journal ≡ self.old.journal }
        ensures stay { Passes NoArrival [] self.old.waiting self.new.waiting }
        ensures flags { flags_of self.new ≡ flags_of self.old }
        ensures seated { IfSome result (λ newcomer. self.new.places
            ≡ seated place number (only_reads newcomer.rights) self.old.now self.old.places) }
        ensures vacant { IfNone result (self.new.places ≡ self.old.places) }
        ensures now { self.new.now ≡ self.old.now }
        ensures noted { IfNone result (J.notes.DidNote self.old.journal self.new.journal (a_note Memory ∷ [])) }
    {
        let registry = self.poll.registry();
        if arrival.reregister(registry, Token(number)).is_err() {
            self.waiting.forget(number);
            self.journal.note(Departure::Memory);
            return None;
        }
        let only_reads = arrival.rights().only_reads();
        self.places.take(place, number, only_reads, self.now);
        Some(arrival.into_newcomer())
    }

    // How long a pause may last: without end while nothing is to be tried again and nobody is to be dismissed.
    fn limit(&self) -> Option<Duration> {
        if let Some(until) = self.until {
            return Some(until.duration_since(self.now));
        }
        if self.is_one_left() {
            return Some(if self.is_short {
                retry_time()
            } else {
                Duration::ZERO
            });
        }
        self.time_to_dismissal()
    }

    // Whether a connection may be there that wasn't accepted.
    fn is_one_left(&self) -> bool {
        self.orders.incoming.may_have_some()
            || self
                .entrances
                .iter()
                .any(|entrance| entrance.incoming.may_have_some())
    }

    // When the client that has been idle for the longest time is to be dismissed, if another one waits.
    fn time_to_dismissal(&self) -> Option<Duration> {
        let candidates = candidates(&self.waiting, &self.places);
        self.places.time_to_dismissal(candidates, self.now)
    }

    // Waits for the system to report that something is ready.
    fn wait(&mut self, moved: bool) -> io::Result<()>
        ensures received { Receives L.model J.notes self.old.entrances.items self.new.entrances.items
            self.old.waiting self.new.waiting self.old.journal self.new.journal }
        ensures flags { flags_of self.new ≡ flags_of self.old }
        ensures places { self.new.places ≡ self.old.places }
    {
        let limit = if moved {
            Some(Duration::ZERO)
        } else {
            self.limit()
        };
        self.poll.poll(&mut self.events, limit)?;
        self.now = Instant::now(self.clock)?;
        announce_all(
            &self.events,
            &mut self.orders,
            &self.places,
            &mut self.entrances,
            &mut self.waiting,
            &mut self.journal,
        );
        Ok(())
    }

    // Chooses the client that is to be dismissed.
    fn choose_idle(&mut self)
        ensures kept { KeepsWaiters self.old self.new }
        ensures flags { flags_of self.new ≡ flags_of self.old }
        ensures now { self.new.now ≡ self.old.now }
        ensures due { ChoosesDue (candidates_of self.old) self.old.now self.old.places self.new.places }
    {
        let candidates = candidates(&self.waiting, &self.places);
        self.places.choose(candidates, self.now);
    }
}

// Whose leaving would give a place to one that has sent something and waits for want of one.
fn candidates<S: Drop>(waiting: &Waiting<S>, places: &Places) -> Candidates
    ensures { result ≡ candidates_at waiting.now places.now }
{
    let taken = places.taken();
    let is_full = places.is_full();
    let readers_full = taken.readers >= taken.most;
    let others_full = taken.others >= taken.most;
    let reader_waits = waiting.has_reader() && (is_full || readers_full);
    let other_waits = waiting.has_other() && (is_full || others_full);
    Candidates {
        readers: reader_waits || other_waits && !others_full,
        others: other_waits || reader_waits && !readers_full,
    }
}

// What is to be done after the order to stop, and until when clients may take their replies: that time begins when the
// order is noticed.
fn finish(until: Option<Instant>, now: Instant) -> (Option<Instant>, Next)
    ensures begins { until ≡ None → (result.1 ≡ next.Stop) × IsFinishingTime now result.0 }
    ensures kept { (last : Instant) → until ≡ Some last → result.0 ≡ Some last }
    ensures over { (last : Instant) → until ≡ Some last → result.1 ≡ next.Stop → IsOver now last }
    ensures on { (last : Instant) → until ≡ Some last → result.1 ≡ next.Again → IsOver now last → ⊥ }
{
    let Some(last) = until else {
        return (now.checked_add(finishing_time()), Next::Stop);
    };
    let is_over = last.duration_since(now).is_zero();
    (until, if is_over { Next::Stop } else { Next::Again })
}

// Notes what the system has reported.
fn announce_all<J: Journal, L: Accepts<S>, S: Drop>(
    events: &Events<Global>,
    orders: &mut StopOrders,
    places: &Places,
    entrances: &mut [Entrance<L>],
    waiting: &mut Waiting<S>,
    journal: &mut J,
)
    ensures { Receives L.model J.notes entrances.old entrances.new waiting.old waiting.new journal.old journal.new }
{
    for event in events.iter() {
        let Token(number) = event.token();
        let is_write_closed = event.is_write_closed();
        announce(
            number,
            is_write_closed,
            orders,
            places,
            entrances,
            waiting,
            journal,
        );
    }
}

// Notes that the system has reported on this number, and whether it says that the other side has hung up.
fn announce<J: Journal, L: Accepts<S>, S: Drop>(
    number: usize,
    is_write_closed: bool,
    orders: &mut StopOrders,
    places: &Places,
    entrances: &mut [Entrance<L>],
    waiting: &mut Waiting<S>,
    journal: &mut J,
)
    ensures { Receives L.model J.notes entrances.old entrances.new waiting.old waiting.new journal.old journal.new }
{
    if number >= FIRST_ORDER {
        orders.announce(number);
    } else if number >= FIRST_CLIENT {
        hear(number, is_write_closed, places, waiting, journal);
    } else if number == STOP {
        orders.incoming.announce();
    } else if number - FIRST_ENTRANCE < entrances.len() {
        entrances[number - FIRST_ENTRANCE].announce();
    }
}

// Notes that a client's connection has sent something, or has hung up.
fn hear<J: Journal, S: Drop>(
    number: usize,
    is_write_closed: bool,
    places: &Places,
    waiting: &mut Waiting<S>,
    journal: &mut J,
)
    ensures { ChangesWaiters J.notes NoArrival waiting.old waiting.new journal.old journal.new }
{
    note_heard(number, waiting, journal);
    let is_other = places.is_other(number) || waiting.is_other(number);
    if is_other && is_write_closed {
        waiting.close(number);
    }
}

fn note_heard<J: Journal, S: Drop>(number: usize, waiting: &mut Waiting<S>, journal: &mut J)
    ensures { ChangesWaiters J.notes NoArrival waiting.old waiting.new journal.old journal.new }
{
    if !waiting.hear(number) {
        journal.note(Departure::Memory);
    }
}

// Has the system report on the sockets of a door.
fn register_all<L: Watched>(
    registry: &Registry,
    orders: &mut StopOrders,
    entrances: &mut [Entrance<L>],
) -> io::Result<()>
    ensures rights { map rights_of entrances.new ≡ map rights_of entrances.old }
    ensures modes { map mode_of entrances.new ≡ map mode_of entrances.old }
    ensures sockets { map socket_of entrances.new ≡ map socket_of entrances.old }
{
    orders.incoming.register(registry, Token(STOP))?;
    for number in 0..entrances.len() {
        let token = Token(FIRST_ENTRANCE.wrapping_add(number));
        entrances[number].register(registry, token)?;
    }
    Ok(())
}

/// Of its calls is known who came in, who waits, and who is given a place. When somebody comes is the system's.
impl<C, J, W, L, S> Door for SocketDoor<'_, C, J, W, L, S>
where
    C: Clock,
    J: Journal + Drop,
    W: Watch + Drop,
    L: Accepts<S> + Watched + Drop,
    S: Prompt + Watched + Drop,
{
    ghost use Rattle.audit_serve_door.specs.DoorCalls.{socket_door_calls};

    ghost calls = { socket_door_calls L.model J.notes W.left };

    type Stream = Metered<Nonblocking<S>>;

    fn next_client(&mut self, place: usize) -> Option<Newcomer<Metered<Nonblocking<S>>>> {
        for tries in 0..SESSIONS {
            // Each free place is offered in each round, and mostly nobody waits.
            if !self.waiting.has_reader() && !self.waiting.has_other() {
                return None;
            }
            let number = next_entry(self.waiting.heads(), self.places.taken())?;
            if !self.waiting.has(number) {
                return None;
            }
            let arrival = self.waiting.take(number)?;
            if let Some(newcomer) = self.seat(place, number, arrival) {
                return Some(newcomer);
            }
        }
        None
    }

    fn dismisses(&mut self, place: usize, client: &Metered<Nonblocking<S>>) -> bool {
        let is_idle = self.places.note(place, client.moves(), self.now);
        is_idle && self.places.is_due(place)
    }

    fn asks_again(&mut self, found: bool) -> bool {
        let Ok(now) = Instant::now(self.clock) else {
            return false;
        };
        self.found = if found { now } else { self.found };
        now.duration_since(self.found) < gathering_time()
    }

    fn lets_reply(&mut self) -> bool {
        if self.is_replaced {
            return false;
        }
        let Ok(now) = Instant::now(self.clock) else {
            return self.look();
        };
        if now.duration_since(self.looked) < looking_time() {
            return true;
        }
        self.looked = now;
        self.look()
    }

    fn gone(&mut self, place: usize, _client: Metered<Nonblocking<S>>, departure: Departure) {
        self.leave(place);
        self.journal.note(departure);
    }

    fn pause(&mut self, moved: bool) -> Next {
        if self.is_replaced {
            return Next::Stop;
        }
        if self.wait(moved).is_err() {
            self.has_failed = true;
            return Next::Stop;
        }
        self.is_short = false;
        self.accept_orders();
        if self.until.is_some() || self.orders.has_come() {
            let (until, next) = finish(self.until, self.now);
            self.until = until;
            return next;
        }
        self.accept_clients();
        self.choose_idle();
        Next::Again
    }
}
