//! Where frames end in the bytes of a connection.
ghost use Rattle.std.specs.Prelude.{◌≡◌, ◌≤◌, length};
ghost use Rattle.audit_cli_connection.specs.Frames.{is_start, place_in_body, place_after_byte};
ghost use Rattle.audit_cli_connection.specs.Frames.{frames_place_after, ends_within};

/// A place in a row of frames.
#[derive(Clone, Copy, Debug, PartialEq, Eq)]
pub enum Place {
    /// Before the length of a frame.
    Start,
    /// After the first byte of a length.
    Length(u8),
    /// Before as many bytes of a frame, and one more.
    Body(u16),
}

/// The place after some bytes.
#[derive(Clone, Copy)]
pub struct Passed {
    /// The place.
    pub place: Place,
    /// Whether a frame ended in these bytes.
    pub has_ended: bool,
}

impl Place {
    /// The place after some bytes from here.
    pub fn after(self, bytes: &[u8]) -> Passed
        ensures place { result.place ≡ frames_place_after self bytes.now }
        ensures ended { result.has_ended ≡ ends_within self bytes.now }
    {
        let mut place = self;
        let mut has_ended = false;
        let mut rest = bytes;
        while let Some((byte, later)) = rest.split_first() {
            let next = place.after_byte(*byte);
            has_ended = has_ended || next.is_start();
            (place, rest) = next.within_body(later);
        }
        Passed { place, has_ended }
    }

    // Passes over the bytes after which the frame at hand goes on, at once. Returns the place after them, and the bytes
    // that are left.
    fn within_body(self, bytes: &[u8]) -> (Place, &[u8])
        ensures place { frames_place_after result.0 result.1.now ≡ frames_place_after self bytes.now }
        ensures ended { ends_within result.0 result.1.now ≡ ends_within self bytes.now }
        ensures fewer { length result.1.now ≤ length bytes.now }
    {
        match self {
            Place::Body(more) => {
                let passed = bytes.len().min(usize::from(more));
                let (_, later) = bytes.split_at(passed);
                (Place::Body(more - passed as u16), later)
            }
            other => (other, bytes),
        }
    }

    fn after_byte(self, byte: u8) -> Place
        ensures { result ≡ place_after_byte self byte }
    {
        match self {
            Place::Start => Place::Length(byte),
            Place::Length(high) => place_in_body(256 * u16::from(high) + u16::from(byte)),
            Place::Body(0) => Place::Start,
            Place::Body(more) => Place::Body(more - 1),
        }
    }

    fn is_start(self) -> bool
        ensures { result ≡ is_start self }
    {
        matches!(self, Place::Start)
    }
}

// The place after the length of a frame.
fn place_in_body(length: u16) -> Place
    ensures { result ≡ place_in_body length }
{
    if length == 0 {
        Place::Start
    } else {
        Place::Body(length - 1)
    }
}
