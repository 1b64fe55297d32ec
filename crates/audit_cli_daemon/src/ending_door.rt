/// A door that can be told to come to its end.
pub trait EndingDoor {
    /// Its end has begun: its pauses let nobody in, and after some seconds they say to stop.
    ghost ending: { Self → Type 0 };

    /// Begins its end, unless it has begun.
    fn begin_end(&mut self)
        ensures { ending self.new };
}
