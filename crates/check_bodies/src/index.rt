ghost use Rattle.std.specs.Prelude.{◌≡◌, ℕ, List, cond, ◌&&◌, ◌<◌, drop, Some, IfOk, OnOk};
ghost use Rattle.std.specs.Str.{bytes_eq};
ghost use Rattle.check_bodies.specs.Names as spec;
ghost use Rattle.check_bodies.specs.Index.{find, FindsFirst};

use crate::names::{Asked, Defined, Local, admits, is_label};
use ltt_base::{Memory, Text};
use std::alloc::Global;
use std::collections::BTreeMap;

fn put(
    alloc: Global,
    map: &mut BTreeMap<Text, Local>,
    name: &Text,
    local: Local,
) -> Result<(), Memory>
    ensures { OnOk result ((q : List ℕ) → find q map.new ≡ cond (bytes_eq name.now q) (Some local) (find q map.old)) }
{
    let key = Text::copy(alloc, name.bytes())?;
    match map.insert(key, local) {
        Ok(_) => Ok(()),
        Err(_) => Err(Memory),
    }
}

fn note(
    alloc: Global,
    map: &mut BTreeMap<Text, Local>,
    asked: Asked,
    defined: &Defined,
) -> Result<(), Memory>
    ensures { OnOk result ((q : List ℕ) → find q map.new
        ≡ cond (spec.admits asked defined.now.local && bytes_eq defined.now.name q) (Some defined.now.local) (find q map.old)) }
{
    if admits(asked, defined.local) {
        put(alloc, map, &defined.name, defined.local)
    } else {
        Ok(())
    }
}

/// What each name stands for: of two of one name the first.
#[tactic(auto, unfolding(crate::specs::Names::first_local))]
pub(crate) fn first_locals(
    alloc: Global,
    asked: Asked,
    names: &[Defined],
) -> Result<BTreeMap<Text, Local>, Memory>
    ensures { IfOk result (FindsFirst asked names.now) }
{
    let mut map = BTreeMap::new(alloc);
    for at in (0..names.len()).rev() {
        note(alloc, &mut map, asked, &names[at])?;
    }
    Ok(map)
}

/// The label of the first block.
#[tactic(auto, unfolding(crate::specs::Names::entry_label))]
pub(crate) fn entry_label(alloc: Global, names: &[Defined]) -> Result<Option<Text>, Memory>
    ensures { IfOk result (λ label. label ≡ spec.entry_label names.now) }
{
    for defined in names {
        if is_label(defined.local) {
            let label = Text::copy(alloc, defined.name.bytes())?;
            return Ok(Some(label));
        }
    }
    Ok(None)
}
