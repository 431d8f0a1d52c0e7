ghost use Rattle.std.specs.Prelude.{◌≡◌, ℕ, ◌<◌, ◌≤◌, ◌++◌, ◌∷◌, [], length, OnOk, ◌==◌, if◌then◌else◌, Some, slice_index_or, slice_set};
ghost use Rattle.global_layout.specs.Owners as owner;

use crate::row::Row;
use ltt_base::Memory;
use std::alloc::Global;

// Which fragment holds an object: the object's label, and the number of the label's fragment.
//
// A fragment that is joined to a longer one gives its objects the label of that one, so that the longer one's
// objects keep theirs while the number changes. `names` has the label that a fragment's number was given to.
#[derive(Drop)]
pub struct Owners {
    pub labels: Vec<Option<usize>>,
    pub numbers: Vec<usize>,
    pub names: Vec<usize>,
}

impl Owners {
    pub fn new(alloc: Global) -> Owners
        ensures labels { result.labels.items ≡ [] }
        ensures numbers { result.numbers.items ≡ [] }
        ensures names { result.names.items ≡ [] }
    {
        Owners {
            labels: Vec::new(alloc),
            numbers: Vec::new(alloc),
            names: Vec::new(alloc),
        }
    }

    // The number of the fragment that holds an object.
    pub fn number_of(&self, object: u32) -> Option<usize>
        ensures { result ≡ owner.number_by self.now.labels.items self.now.numbers.items object }
    {
        match label_of(self.labels.as_slice(), object) {
            Some(label) => Some(at_or_zero(self.numbers.as_slice(), label)),
            None => None,
        }
    }

    // Gives the next number to a label, or to a new one.
    pub fn number_next(&mut self, label: usize) -> Result<(), Memory>
        requires { label ≤ length self.old.numbers.items }
        ensures labels { OnOk result (self.new.labels.items ≡ self.old.labels.items) }
        ensures numbers { let next = length self.old.numbers.items in
            OnOk result (self.new.numbers.items ≡ slice_set (self.old.numbers.items ++ next ∷ []) label next) }
        ensures names { OnOk result (self.new.names.items ≡ self.old.names.items ++ label ∷ []) }
    {
        let next = self.numbers.len();
        match self.numbers.push(next) {
            Ok(()) => {}
            Err(_) => return Err(Memory),
        }
        self.numbers[label] = next;
        match self.names.push(label) {
            Ok(()) => Ok(()),
            Err(_) => Err(Memory),
        }
    }
}

// The number at a place; 0 past the last.
pub fn at_or_zero(numbers: &[usize], at: usize) -> usize
    ensures { result ≡ slice_index_or numbers.now at 0 }
{
    if at < numbers.len() { numbers[at] } else { 0 }
}

// Puts objects under a label.
pub fn own(objects: &[u32], label: usize, labels: &mut Vec<Option<usize>>) -> Result<(), Memory>
    ensures { OnOk result (owner.AreLabelled (owner.owner_in labels.old.items) objects.now label (owner.owner_in labels.new.items)) }
{
    for at in 0..objects.len() {
        put(objects[at], label, labels)?;
    }
    Ok(())
}

// Puts the objects of a fragment under a label.
pub fn own_row(row: &Row, label: usize, labels: &mut Vec<Option<usize>>) -> Result<(), Memory>
    ensures { OnOk result (owner.AreLabelled (owner.owner_in labels.old.items) row.now label (owner.owner_in labels.new.items)) }
{
    let (front, back) = row.parts();
    own(front, label, labels)?;
    own(back, label, labels)
}

// Puts an object under a label.
fn put(object: u32, label: usize, labels: &mut Vec<Option<usize>>) -> Result<(), Memory>
    ensures { OnOk result ((o : ℕ) → owner.owner_in labels.new.items o ≡ (if object == o then Some label else owner.owner_in labels.old.items o)) }
{
    grow(object as usize, labels)?;
    labels[object as usize] = Some(label);
    Ok(())
}

// Makes the list longer than a place, by objects that have no label.
fn grow(place: usize, labels: &mut Vec<Option<usize>>) -> Result<(), Memory>
    ensures long { OnOk result (place < length labels.new.items) }
    ensures same { OnOk result ((o : ℕ) → owner.owner_in labels.new.items o ≡ owner.owner_in labels.old.items o) }
{
    while labels.len() <= place {
        match labels.push(None) {
            Ok(()) => {}
            Err(_) => return Err(Memory),
        }
    }
    Ok(())
}

// The label of an object.
pub fn label_of(labels: &[Option<usize>], object: u32) -> Option<usize>
    ensures { result ≡ owner.owner_in labels.now object }
{
    if (object as usize) < labels.len() {
        labels[object as usize]
    } else {
        None
    }
}
