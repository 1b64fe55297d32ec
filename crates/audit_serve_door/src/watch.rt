ghost use Rattle.std.specs.Prelude.{◌≡◌, false};

/// Whether what is served is still where it is expected.
pub trait Watch {
    /// The last look found that it isn't. Code that is generic over the watch can have this from that look alone.
    ghost left: { Self → Type 0 };

    /// Whether it is. It must not wait longer than a call on a path does.
    fn is_in_place(&mut self) -> bool
        ensures { result ≡ false → left self.new };
}
