use crate::byte_list::ByteList;

/// A request of a client. `tag` is the client's own number, which the reply repeats.
#[derive(Debug, Drop)]
pub enum Request {
    /// Append an event of this kind.
    Append {
        tag: u32,
        kind: u32,
        payload: ByteList,
    },
    /// The newest commitment.
    Commitment {
        tag: u32,
    },
    /// A membership (inclusion) proof of the entry `index` under `count`.
    Membership {
        tag: u32,
        index: u64,
        count: u64,
    },
    /// An incremental (consistency) proof from count `older` to count `newer`.
    Incremental {
        tag: u32,
        older: u64,
        newer: u64,
    },
    /// The entry `index`.
    Entry {
        tag: u32,
        index: u64,
    },
    /// Close the log.
    Close {
        tag: u32,
    },
    /// The state of the store. Only the clients of a daemon may make this request and those below
    /// ([`Grammar`](crate::Grammar)).
    State {
        tag: u32,
    },
    /// The number of events of this kind, which is the place of its next event.
    Place {
        tag: u32,
        kind: u32,
    },
    /// Append an event of this kind if it is the event number `place` of its kind, counted from 0.
    PlacedAppend {
        tag: u32,
        kind: u32,
        place: u64,
        payload: ByteList,
    },
}
