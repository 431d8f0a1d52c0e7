ghost use Rattle.std.specs.Prelude.{◌≡◌, ◌++◌, [], length, IfOk};

use ltt_base::{List, Memory};
use std::alloc::Global;
use std::collections::VecDeque;
use std::marker::Model;

// The objects of a fragment, in a row that grows at both ends.
#[derive(Drop)]
pub struct Row {
    objects: VecDeque<u32>,
}

impl Model for Row {
    ghost use Rattle.std.specs.Prelude.{List, ℕ};

    ghost Value = { List ℕ };

    ghost view = { λ row. row.objects.items };
}

impl Row {
    pub fn new(alloc: Global) -> Row
        ensures { result ≡ [] }
    {
        Row {
            objects: VecDeque::new(alloc),
        }
    }

    pub fn len(&self) -> usize
        ensures { result ≡ length self.now }
    {
        self.objects.len()
    }

    // The objects, in two parts.
    pub fn parts(&self) -> (&[u32], &[u32])
        ensures { result.0.now ++ result.1.now ≡ self.now }
    {
        self.objects.as_slices()
    }

    // The objects of two rows, which moves those of the shorter.
    pub fn followed(self, more: Row) -> Result<Row, Memory>
        ensures { IfOk result (λ both. both ≡ self ++ more) }
    {
        if self.len() < more.len() {
            more.behind(self)
        } else {
            let Row { mut objects } = more;
            self.before(&mut objects)
        }
    }

    // This row behind the objects of another, which are moved.
    fn behind(self, others: Row) -> Result<Row, Memory>
        ensures { IfOk result (λ both. both ≡ others ++ self) }
    {
        let Row { mut objects } = self;
        let Row { objects: mut first } = others;
        while let Some(object) = first.pop_back() {
            match objects.push_front(object) {
                Ok(()) => {}
                Err(_) => return Err(Memory),
            }
        }
        Ok(Row { objects })
    }

    // This row before other objects, which are moved.
    fn before(self, others: &mut VecDeque<u32>) -> Result<Row, Memory>
        ensures { IfOk result (λ both. both ≡ self ++ others.old.items) }
    {
        let Row { mut objects } = self;
        match objects.append(others) {
            Ok(()) => Ok(Row { objects }),
            Err(_) => Err(Memory),
        }
    }

    // This row before the objects of a list, which are moved.
    pub fn before_list(self, others: List<u32>) -> Result<Row, Memory>
        ensures { IfOk result (λ both. both ≡ self ++ others) }
    {
        let mut objects = VecDeque::from_vec(others.into_vec());
        self.before(&mut objects)
    }

    // The objects as a list.
    pub fn into_list(self) -> List<u32>
        ensures { result ≡ self }
    {
        let Row { objects } = self;
        List::from_vec(objects.into_vec())
    }
}
