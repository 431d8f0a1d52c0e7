// The outside, as everything above sees it: files that are read, and a sink that is written.
ghost use Rattle.std.specs.Prelude.{◌≡◌, ◌↔◌, ◌<◌, ◌≤◌, ℕ, List, length, OnOk, OnErr};
ghost use Rattle.std.specs.declared.option.Option.{Option};
ghost use Rattle.ltt_base.specs.Outside.{Rose, Reads, Takes};

use thiserror::Error;

/// A file or a sink failed.
#[derive(Debug, Clone, Copy, Error)]
#[error("the outside failed")]
pub struct Failed;

/// Files, of which one at a time is read.
pub trait Files {
    /// The bytes that a name holds, where they are told.
    ghost held: { Self → List ℕ → Option (List ℕ) };

    /// What is still to be read of the selected file, where it is told.
    ghost left: { Self → Option (List ℕ) };

    /// Whether a name is selected.
    ghost is_selected: { Self → List ℕ → Type 0 };

    /// The count of a name's faults. It never falls.
    ghost faults: { Self → List ℕ → ℕ };

    /// Selects a file, to be read from its start. After `Failed` nothing is selected.
    fn select(&mut self, name: &str) -> Result<(), Failed>
        ensures held { (other : List ℕ) → held self.new other ≡ held self.old other }
        ensures counts { (other : List ℕ) → faults self.old other ≤ faults self.new other }

        ensures selected { OnOk result (is_selected self.new name.now) }
        ensures whole { OnOk result (left self.new ≡ held self.old name.now) }

        ensures failed { OnErr result (Rose (faults self.old name.now) (faults self.new name.now)) }
        ensures none { OnErr result ((other : List ℕ) → ¬ is_selected self.new other) };

    /// Moves a prefix of what is left into the front of `into`, and answers its length. Zero for an
    /// `into` that isn't empty means that nothing is left. After `Failed` nothing is selected.
    fn read(&mut self, into: &mut [u8]) -> Result<usize, Failed>
        requires { (name : List ℕ) × is_selected self.old name }
        ensures held { (other : List ℕ) → held self.new other ≡ held self.old other }
        ensures counts { (other : List ℕ) → faults self.old other ≤ faults self.new other }

        ensures bytes { Reads (left self.old) (left self.new) result into.new }
        ensures kept { OnOk result ((other : List ℕ) → is_selected self.new other ↔ is_selected self.old other) }

        ensures failed { OnErr result ((name : List ℕ) → is_selected self.old name
            → Rose (faults self.old name) (faults self.new name)) }
        ensures none { OnErr result ((other : List ℕ) → ¬ is_selected self.new other) };
}

/// A stream that takes bytes.
pub trait Sink {
    /// The bytes taken so far, where they are told.
    ghost taken: { Self → Option (List ℕ) };

    /// The count of faults. It never falls.
    ghost faults: { Self → ℕ };

    /// Takes a prefix of at least one byte, and answers its length. `Failed` takes nothing.
    fn write(&mut self, piece: &[u8]) -> Result<usize, Failed>
        requires { 0 < length piece.now }
        ensures counts { faults self.old ≤ faults self.new }

        ensures took { Takes (taken self.old) (taken self.new) result piece.now }

        ensures same { OnErr result (taken self.new ≡ taken self.old) }
        ensures failed { OnErr result (Rose (faults self.old) (faults self.new)) };
}
