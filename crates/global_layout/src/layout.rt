ghost use Rattle.std.specs.Prelude.{◌≡◌, ℕ, ◌<◌, ◌≤◌, All, IfOk, MatchOption, length};
ghost use Rattle.global_layout.specs.Layout as spec;

use crate::fragments::fragments_of;
use crate::groups::{Group, Home};
use crate::ids::{IdMembers, Shape};
use crate::placing::{Placing, placed_in};
use ltt_base::{Code, Fault, List, Memory, Place, Refusal, Text};
use std::alloc::Global;

/// The combined variables and tables of all objects that an identifier lists, and where each object stands.
#[derive(Drop)]
pub struct Layout {
    groups: List<Group>,
    homes: List<Option<Home>>,
}

/// Lays out the objects of identifiers, so that the objects of each stand together.
///
/// Identifiers of fewer objects are taken first. More than 134,217,727 bytes of all combined variables
/// are refused, with the word `layout` and no place.
///
/// Source: Control Flow Integrity Design, "Virtual Table Layout" and "Padding to Powers of 2"; LLVM's
/// `GlobalLayoutBuilder`. Differs: the padding is the rule in docs/layout.md.
pub fn arrange(alloc: Global, ids: &[IdMembers], shapes: &[Shape]) -> Result<Layout, Fault>
    requires ids { All (spec.IsId shapes.now) ids.now }
    requires shapes { All spec.IsShape shapes.now }
    ensures { spec.IsArranged ids.now shapes.now result }
{
    match arranged(alloc, ids, shapes)? {
        Some(placing) => {
            let Placing { groups, homes, .. } = placing;
            Ok(Layout { groups, homes })
        }
        None => Err(too_long(alloc)),
    }
}

// The layout, if it isn't too long.
fn arranged(alloc: Global, ids: &[IdMembers], shapes: &[Shape]) -> Result<Option<Placing>, Memory>
    requires ids { All (spec.IsId shapes.now) ids.now }
    requires shapes { All spec.IsShape shapes.now }
    ensures { let whole = spec.placed ids.now shapes.now in
        IfOk result (λ answer. MatchOption answer (spec.most_bytes < whole.bytes) (λ p. (p ≡ whole) × (whole.bytes ≤ spec.most_bytes))) }
{
    let fragments = fragments_of(alloc, ids)?;
    placed_in(alloc, shapes, fragments.items())
}

// The refusal of combined variables that are too long.
fn too_long(alloc: Global) -> Fault
    ensures { spec.IsTooLong result }
{
    match Text::copy(alloc, b"layout") {
        Ok(word) => Fault::Refused(Refusal {
            code: Code::E12,
            place: Place {
                file: 0,
                line: 0,
                column: 0,
            },
            word,
        }),
        Err(Memory) => Fault::Memory,
    }
}

impl Layout {
    /// Where an object's first byte stands in the output. Takes no memory.
    ///
    /// `object` counts the shapes that `arrange` was given, from 0. The offset is in bytes from the start
    /// of the combined variable or table, behind the bytes stored before the object; of function k of a
    /// table it is 8k. `None` exactly for an object that no identifier lists: it stays where it was.
    pub fn home(&self, object: u32) -> Option<Home>
        ensures { result ≡ spec.home_of self.now object }
    {
        let homes = self.homes.items();
        if (object as usize) < homes.len() {
            homes[object as usize]
        } else {
            None
        }
    }

    /// The combined variables and tables, in the order in which they are numbered.
    pub fn groups(&self) -> &[Group]
        ensures { result.now ≡ spec.groups_of self.now }
    {
        self.groups.items()
    }
}
