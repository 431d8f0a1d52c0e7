// What takes text piece by piece.
ghost use Rattle.std.specs.Prelude.{◌≡◌};
ghost use Rattle.ir_names.specs.Puts.{State, Puts};

/// What takes text piece by piece.
pub trait Printer {
    /// What was taken, what waits, and whether the sink has failed.
    ghost state: { Self → State };

    /// Puts a piece behind the text so far. After a failure it does nothing.
    fn put(&mut self, piece: &[u8])
        ensures { Puts (state self.old) (state self.new) piece.now };

    /// Whether the sink has failed.
    fn has_failed(&self) -> bool
        ensures { result ≡ (state self.now).failed };
}
