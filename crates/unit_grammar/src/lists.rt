ghost use Rattle.std.specs.Prelude.{◌≡◌, [], ◌∷◌, IfOk};

use ltt_base::{List, Memory};
use std::alloc::Global;

/// A list of one item.
pub fn one<T: Drop>(alloc: Global, item: T) -> Result<List<T>, Memory>
    ensures { IfOk result (λ list. list ≡ item ∷ []) }
{
    let mut list = List::new(alloc);
    match list.push(item) {
        Ok(()) => Ok(list),
        Err(_) => Err(Memory),
    }
}

/// A list of two items.
pub fn two<T: Drop>(alloc: Global, first: T, second: T) -> Result<List<T>, Memory>
    ensures { IfOk result (λ list. list ≡ first ∷ second ∷ []) }
{
    let mut list = one(alloc, first)?;
    match list.push(second) {
        Ok(()) => Ok(list),
        Err(_) => Err(Memory),
    }
}
