ghost use Rattle.std.specs.Prelude.{◌≡◌};
ghost use Rattle.audit_serve_door.specs.Orders.{order_text};

/// The order to stop a daemon. Whoever sends it to the daemon's socket for orders is answered with one byte, the status
/// with which the daemon exits.
pub const STOP_ORDER: &[u8] = b"stop\n";

/// What the first bytes of a connection are as an order.
#[derive(Clone, Copy, Debug, PartialEq, Eq)]
pub enum OrderText {
    /// The order.
    Whole,
    /// The beginning of the order, which may be empty.
    Begun,
    /// No order.
    Wrong,
}

/// Judges the first bytes of a connection, of which there are at most as many as the order has.
pub fn order_text(bytes: &[u8]) -> OrderText
    ensures { result ≡ order_text bytes.now }
{
    if bytes == STOP_ORDER {
        OrderText::Whole
    } else if STOP_ORDER.starts_with(bytes) {
        OrderText::Begun
    } else {
        OrderText::Wrong
    }
}
