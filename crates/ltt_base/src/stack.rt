ghost use Rattle.std.specs.Prelude.{◌≡◌, [], ◌∷◌, ◌<◌, length, slice_get, Some, ◌↔◌, IsTrue, IfErr, OnOk, OnErr, MatchOption};
ghost use Rattle.std.specs.Option.{option_copied};
ghost use Rattle.std.specs.Borrow.{sem};

use crate::list::List;
use std::alloc::Global;
use std::marker::Model;

/// A list that is seen from its top: contracts see its items, the top first.
#[derive(Drop)]
pub struct Stack<T> {
    items: List<T>,
}

impl<T> Model for Stack<T> {
    ghost use Rattle.std.specs.Prelude.{List, reverse};
    ghost use Rattle.std.specs.Coded.{coded_list};

    ghost Value = { List T };

    ghost coded = { coded_list T.code };

    ghost view = { λ stack. reverse stack.items };
}

impl<T> Stack<T> {
    ghost use Rattle.ltt_base.specs.Lending.{LendsTop};

    /// A stack of no items, which takes no memory.
    pub fn new(alloc: Global) -> Stack<T>
        ensures { result ≡ [] }
    {
        Stack {
            items: List::new(alloc),
        }
    }

    /// Puts an item on the top. Without memory the stack stays as it was, and the item comes back.
    pub fn push(&mut self, item: T) -> Result<(), T>
        ensures added { OnOk result (self.new ≡ item ∷ self.old) }
        ensures same { OnErr result (self.new ≡ self.old) }
        ensures back { IfErr result (λ returned. returned ≡ item) }
    {
        self.items.push(item)
    }

    /// Takes the top off.
    pub fn pop(&mut self) -> Option<T>
        ensures { MatchOption result ((self.old ≡ []) × (self.new ≡ [])) (λ top. self.old ≡ top ∷ self.new) }
    {
        self.items.pop()
    }

    /// The top.
    pub fn top(&self) -> Option<&T>
        ensures { option_copied result ≡ slice_get self.now 0 }
    {
        self.items.items().last()
    }

    /// The top, to be changed there.
    pub fn top_mut(&mut self) -> &mut T
        requires { 0 < length self.old }
        ensures* writes_back { sem 𝓛 (LendsTop T.row self.entry result) }
        ensures value { slice_get self.old 0 ≡ Some result.now }
    {
        let last = self.items.len() - 1;
        self.items.at_mut(last)
    }

    /// The number of items.
    pub fn len(&self) -> usize
        ensures { result ≡ length self.now }
    {
        self.items.len()
    }

    /// Whether there is no item.
    pub fn is_empty(&self) -> bool
        ensures { IsTrue result ↔ (self.now ≡ []) }
    {
        self.items.len() == 0
    }
}
