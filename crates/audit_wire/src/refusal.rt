ghost use Rattle.std.specs.Prelude.{◌≡◌};

/// Why a request was refused, with its code on the wire.
#[derive(Clone, Copy, Debug, PartialEq, Eq)]
pub enum Refusal {
    /// An entry on the device is damaged.
    DamagedLog = 4,
    /// The event doesn't fit on the device.
    Full = 7,
    /// The log has no such index or count.
    NoSuchVersion = 8,
    /// The generations of the device are used up.
    Worn = 9,
    /// The device failed.
    Device = 11,
    /// The log is closed.
    Closed = 13,
    /// The request isn't allowed on this socket.
    NotAllowed = 16,
    /// The events of this kind aren't counted here.
    NotCounted = 18,
    /// The bytes weren't a request.
    Malformed = 20,
}

impl Refusal {
    ghost use Rattle.audit_wire.specs.Reply.{refusal_code, refusal_with_code};

    /// The code on the wire.
    pub fn code(self) -> u8
        ensures { result ≡ refusal_code self }
    {
        self as u8
    }

    /// The refusal with this code on the wire, if there is one.
    pub fn from_code(code: u8) -> Option<Refusal>
        ensures { result ≡ refusal_with_code code }
    {
        match code {
            4 => Some(Refusal::DamagedLog),
            7 => Some(Refusal::Full),
            8 => Some(Refusal::NoSuchVersion),
            9 => Some(Refusal::Worn),
            11 => Some(Refusal::Device),
            13 => Some(Refusal::Closed),
            16 => Some(Refusal::NotAllowed),
            18 => Some(Refusal::NotCounted),
            20 => Some(Refusal::Malformed),
            _ => None,
        }
    }
}
