use crate::incoming::{Accepted, Incoming};
use crate::limits::MAX_ORDERS;
use crate::listening::PromptListening;
use crate::order::{OrderText, STOP_ORDER, order_text};
use mio::net::UnixStream;
use mio::{Interest, Registry, Token};
use std::alloc::{AllocError, Global};
use std::io::{self, ErrorKind, Read, Write};
use std::os::unix::net::UnixListener;

// The length of an order.
const ORDER_LEN: usize = STOP_ORDER.len();

/// A connection that may bring an order, and what it has sent.
#[derive(Drop)]
struct Pending {
    stream: UnixStream,
    number: usize,
    bytes: [u8; ORDER_LEN],
    count: usize,
}

impl Pending {
    fn new(stream: UnixStream, number: usize) -> Pending {
        Pending {
            stream,
            number,
            bytes: [0; ORDER_LEN],
            count: 0,
        }
    }

    // Reads what is there, and judges all that came so far. A stream that ends before the order is none.
    fn advance(&mut self) -> OrderText {
        for _ in 0..=ORDER_LEN {
            let Some(rest) = self.bytes.get_mut(self.count..) else {
                return OrderText::Wrong;
            };
            match self.stream.read(rest) {
                Ok(0) => return OrderText::Wrong,
                Ok(count) => self.count = self.count.saturating_add(count),
                Err(error) if is_passing(error.kind()) => return OrderText::Begun,
                Err(_) => return OrderText::Wrong,
            }
            let text = self.text();
            if text != OrderText::Begun {
                return text;
            }
        }
        OrderText::Begun
    }

    fn text(&self) -> OrderText {
        match self.bytes.get(..self.count) {
            Some(bytes) => order_text(bytes),
            None => OrderText::Wrong,
        }
    }
}

fn is_passing(kind: ErrorKind) -> bool {
    kind == ErrorKind::WouldBlock || kind == ErrorKind::Interrupted
}

/// The socket on which the order to stop comes, as a message ([`STOP_ORDER`]): a connection alone is none. Whoever
/// ordered it waits for the answer: one byte, the status with which the daemon exits.
#[derive(Drop)]
pub struct StopOrders {
    pub(crate) incoming: Incoming<mio::net::UnixListener>,
    // Connections that have sent no whole order, the oldest first.
    pending: Vec<Pending>,
    // Those that have.
    given: Vec<UnixStream>,
}

impl StopOrders {
    ghost use Rattle.std.specs.Prelude.{◌≡◌, ◌⊎◌, IfOk, IfErr, OnOk};
    ghost use Rattle.std.specs.IoError.{error_kind};
    ghost use Rattle.std.specs.Net.Unix.{unix_listener_raw_fd};
    ghost use Rattle.audit_serve_door.specs.Finishing.{has_order, descriptor_of_orders};

    /// Takes orders from a socket that listens. Accepting there doesn't wait. It fails only if that call did, or, with
    /// `OutOfMemory`, if memory is refused.
    pub fn new<P: PromptListening>(
        rt: &P,
        alloc: Global,
        listener: UnixListener,
    ) -> io::Result<StopOrders>
        ensures socket { IfOk result (λ orders. descriptor_of_orders orders ≡ unix_listener_raw_fd listener) }
        ensures prompt { OnOk result (P.prompt rt.now (unix_listener_raw_fd listener)) }
        ensures failed { IfErr result (λ error. P.unprompted rt.now ⊎ (error_kind error ≡ ErrorKind.OutOfMemory)) }
    {
        Ok(StopOrders {
            incoming: Incoming::new(rt, listener)?,
            pending: room(alloc)?,
            given: room(alloc)?,
        })
    }

    /// Whether an order has come.
    pub(crate) fn has_come(&self) -> bool
        ensures { result ≡ has_order self.now }
    {
        !self.given.is_empty()
    }

    /// Takes a connection that may bring an order. What it sends later is reported under this number. If too many have
    /// sent none, the oldest one is dropped.
    pub(crate) fn admit(&mut self, mut stream: UnixStream, number: usize, registry: &Registry) {
        if registry
            .register(&mut stream, Token(number), Interest::READABLE)
            .is_ok()
        {
            self.judge(Pending::new(stream, number));
        }
    }

    /// Notes that the connection with this number has sent something.
    pub(crate) fn announce(&mut self, number: usize) {
        let found = self.pending.iter().position(|one| one.number == number);
        if let Some(at) = found
            && at < self.pending.len()
        {
            let order = self.pending.remove(at);
            self.judge(order);
        }
    }

    // Keeps a connection that may still bring an order, or has brought one.
    fn judge(&mut self, mut order: Pending) {
        match order.advance() {
            OrderText::Whole => put(&mut self.given, order.stream),
            OrderText::Begun => put(&mut self.pending, order),
            OrderText::Wrong => {}
        }
    }

    /// Answers each order that has come with the status, and takes no further ones.
    pub fn answer(mut self, status: u8) {
        self.incoming.announce();
        for _ in 0..MAX_ORDERS {
            if let Accepted::One(stream) = self.incoming.accept() {
                self.judge(Pending::new(stream, 0));
            }
        }
        for order in self.given.iter_mut() {
            let _ = order.write(&[status]);
        }
    }
}

// An empty list with room for all that is kept.
fn room<T>(alloc: Global) -> Result<Vec<T>, AllocError> {
    Vec::with_capacity(alloc, MAX_ORDERS)
}

// Appends one, and drops the first of too many.
fn put<T: Drop>(list: &mut Vec<T>, one: T) {
    if list.len() >= MAX_ORDERS {
        let _ = list.remove(0);
    }
    let _ = list.push(one);
}
