ghost use Rattle.std.specs.Prelude.{◌≡◌, ℕ, ◌+◌, ◌*◌, ◌^◌, ◌<◌, ◌≤◌, length, All, MatchOption, MatchBool, IfSome, OnOk};
ghost use Rattle.global_layout.specs.Slots as slot;
ghost use Rattle.global_layout.specs.Layout as spec;

use crate::groups::Home;
use crate::ids::Shape;
use ltt_base::{List, Memory};

// The most bytes that all combined variables may have together.
pub const MOST_BYTES: u64 = 134_217_727;

// A combined variable or a table with some of its objects: its end, its alignment, and the homes so far.
#[derive(Drop)]
pub struct Slots {
    pub length: u64,
    pub align: u64,
    pub homes: List<Option<Home>>,
}

// The least power of two that is at least n.
fn power_above(n: u64) -> u64
    requires { n ≤ 2 ^ 32 }
    ensures { result ≡ slot.power_above n }
{
    let mut power = 1;
    while power < n {
        power *= 2;
    }
    power
}

// The bytes of a slot of which n bytes are needed.
fn pad(n: u64) -> u64
    requires { n ≤ 2 ^ 32 }
    ensures { result ≡ slot.pad n }
{
    let power = power_above(n);
    if power <= n + 32 {
        power
    } else {
        (n + 31) / 32 * 32
    }
}

// The least multiple of an alignment that is at least n.
fn raised(n: u64, align: u64) -> u64
    requires bytes { n ≤ 2 ^ 32 }
    requires align { spec.IsAlign align }
    ensures { result ≡ slot.raised n align }
{
    (n + (align - 1)) / align * align
}

// The bytes of an object's slot; `None` where they are too many.
fn slot_size(shape: Shape) -> Option<u64>
    requires { spec.IsShape shape }
    ensures size { MatchOption result (spec.most_bytes < slot.slot_size shape) (λ size. size ≡ slot.slot_size shape) }
    ensures before { IfSome result (λ _. shape.before ≤ spec.most_bytes) }
{
    if shape.before.max(shape.extent).max(shape.after) > MOST_BYTES {
        return None;
    }
    Some(pad(raised(shape.before, shape.align) + shape.extent + shape.after))
}

impl Slots {
    // Adds an object behind the others; false where the combined variable gets too long.
    pub fn add_object(&mut self, number: u32, object: u32, shape: Shape) -> bool
        requires shape { spec.IsShape shape }
        requires within { object < length self.old.homes }
        requires short { self.old.length ≤ spec.most_bytes }
        ensures { let more = spec.slot_by shape number self.old object in
            MatchBool result ((self.new ≡ more) × (more.length ≤ spec.most_bytes)) (spec.most_bytes < more.length) }
    {
        let Some(size) = slot_size(shape) else {
            return false;
        };
        let start = raised(self.length, shape.align);
        if size > MOST_BYTES || start + size > MOST_BYTES {
            return false;
        }
        let home = Home {
            table: false,
            number,
            offset: start + raised(shape.before, shape.align),
        };
        self.length = start + size;
        self.align = self.align.max(shape.align);
        self.homes.set(object as usize, Some(home));
        true
    }

    // Adds an entry behind the others. Without memory the table is of no use.
    pub fn add_entry(&mut self, number: u32, object: u32) -> Result<(), Memory>
        requires { object < length self.old.homes }
        ensures { OnOk result (self.new ≡ spec.entry_more number self.old object) }
    {
        let home = Home {
            table: true,
            number,
            offset: self.length,
        };
        match self.length.checked_add(8) {
            Some(length) => self.length = length,
            None => return Err(Memory),
        }
        self.homes.set(object as usize, Some(home));
        Ok(())
    }
}
