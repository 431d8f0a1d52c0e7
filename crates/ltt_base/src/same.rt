// Equality of values, for clauses: a caller learns from `is` that the values are one, and from `==` only what the trait tells.
ghost use Rattle.std.specs.Prelude.{◌≡◌, ◌↔◌, IsTrue};

use crate::boxed::Boxed;
use crate::list::List;
use crate::refusal::Place;
use crate::text::Text;

/// A type whose values can be told apart.
pub trait Same {
    /// Whether the two are one value.
    fn is(&self, other: &Self) -> bool
        ensures { IsTrue result ↔ (self.now ≡ other.now) };
}

impl Same for u8 {
    fn is(&self, other: &u8) -> bool {
        *self == *other
    }
}

impl Same for u32 {
    fn is(&self, other: &u32) -> bool {
        *self == *other
    }
}

impl Same for u64 {
    fn is(&self, other: &u64) -> bool {
        *self == *other
    }
}

impl Same for Place {
    fn is(&self, other: &Place) -> bool {
        self.file == other.file && self.line == other.line && self.column == other.column
    }
}

impl Same for Text {
    fn is(&self, other: &Text) -> bool {
        self.is_bytes(other.bytes())
    }
}

impl<T: Same> Same for Boxed<T> {
    fn is(&self, other: &Boxed<T>) -> bool {
        self.get().is(other.get())
    }
}

impl<T: Same> Same for Option<T> {
    fn is(&self, other: &Option<T>) -> bool {
        match (self, other) {
            (Some(one), Some(two)) => one.is(two),
            (None, None) => true,
            _ => false,
        }
    }
}

impl<A: Same, B: Same> Same for (A, B) {
    fn is(&self, other: &(A, B)) -> bool {
        self.0.is(&other.0) && self.1.is(&other.1)
    }
}

impl<T: Same> Same for List<T> {
    fn is(&self, other: &List<T>) -> bool {
        let ones = self.items();
        let others = other.items();
        if ones.len() != others.len() {
            return false;
        }
        for at in 0..ones.len() {
            if !ones[at].is(&others[at]) {
                return false;
            }
        }
        true
    }
}
