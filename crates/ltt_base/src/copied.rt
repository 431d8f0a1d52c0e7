// Copies that are equal to what they copy.
ghost use Rattle.std.specs.Prelude.{◌≡◌, IfOk};

use crate::boxed::Boxed;
use crate::list::List;
use crate::refusal::Memory;
use crate::text::Text;
use std::alloc::Global;

/// A type whose values can be copied into new memory.
pub trait Copied: Drop {
    /// An equal value.
    fn copied(&self, alloc: Global) -> Result<Self, Memory>
        ensures { IfOk result (λ copy. copy ≡ self.now) };
}

impl Copied for u8 {
    fn copied(&self, _alloc: Global) -> Result<u8, Memory> {
        Ok(*self)
    }
}

impl Copied for u32 {
    fn copied(&self, _alloc: Global) -> Result<u32, Memory> {
        Ok(*self)
    }
}

impl Copied for u64 {
    fn copied(&self, _alloc: Global) -> Result<u64, Memory> {
        Ok(*self)
    }
}

impl Copied for Text {
    fn copied(&self, alloc: Global) -> Result<Text, Memory> {
        Text::copy(alloc, self.bytes())
    }
}

impl<T: Copied> Copied for Boxed<T> {
    fn copied(&self, alloc: Global) -> Result<Boxed<T>, Memory> {
        let value = self.get().copied(alloc)?;
        Boxed::new(alloc, value)
    }
}

impl<T: Copied> Copied for Option<T> {
    fn copied(&self, alloc: Global) -> Result<Option<T>, Memory> {
        match self {
            Some(value) => Ok(Some(value.copied(alloc)?)),
            None => Ok(None),
        }
    }
}

impl<A: Copied, B: Copied> Copied for (A, B) {
    fn copied(&self, alloc: Global) -> Result<(A, B), Memory> {
        let first = self.0.copied(alloc)?;
        let second = self.1.copied(alloc)?;
        Ok((first, second))
    }
}

impl<T: Copied> Copied for List<T> {
    fn copied(&self, alloc: Global) -> Result<List<T>, Memory> {
        let mut copies = List::new(alloc);
        for item in self.items() {
            copies.add(item.copied(alloc)?)?;
        }
        Ok(copies)
    }
}
