/// What is known of the text of a key file, without its digits.
#[derive(Clone, Copy, Debug, PartialEq, Eq)]
pub struct KeyText {
    bytes: u64,
    // The first byte that is no hex digit, and its place from 1 on.
    odd: Option<(u64, u8)>,
    ends_in_feed: bool,
    has_ended: bool,
}

/// How many hex digits a key has.
pub const KEY_DIGITS: u64 = 64;

impl KeyText {
    /// A text of which nothing was read.
    pub fn new() -> KeyText {
        KeyText {
            bytes: 0,
            odd: None,
            ends_in_feed: false,
            has_ended: false,
        }
    }

    /// Takes the next bytes of the text; none are its end, after which nothing belongs to it.
    pub fn take(&mut self, bytes: &[u8]) {
        if self.has_ended {
            return;
        }
        if bytes.is_empty() {
            self.has_ended = true;
            return;
        }
        let mut place = self.bytes;
        for byte in bytes {
            place = place.saturating_add(1);
            if self.odd.is_none() && !byte.is_ascii_hexdigit() {
                self.odd = Some((place, *byte));
            }
        }
        self.bytes = place;
        self.ends_in_feed = bytes.ends_with(b"\n");
    }

    /// Its length in bytes, without a line feed at its end.
    pub fn length(&self) -> u64 {
        if self.ends_in_feed {
            self.bytes.saturating_sub(1)
        } else {
            self.bytes
        }
    }

    /// The first byte that is no hex digit and no line feed at the end, and its place from 1 on.
    pub fn odd(&self) -> Option<(u64, u8)> {
        match self.odd {
            Some((place, b'\n')) if place == self.bytes => None,
            odd => odd,
        }
    }

    /// Whether it was read to its end, and is a key.
    pub fn is_key(&self) -> bool {
        self.has_ended && self.odd().is_none() && self.length() == KEY_DIGITS
    }

    /// Whether it is no key, whatever follows what was read.
    pub fn is_no_key(&self) -> bool {
        !self.is_key() && (self.has_ended || self.length() > KEY_DIGITS)
    }
}
