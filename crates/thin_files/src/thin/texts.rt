ghost use Rattle.std.specs.Prelude.{◌≡◌, List, [], ◌∷◌, map, ◌++◌, All, Contains, IsTrue, ◌↔◌, IsSome, IfOk, OnOk};
ghost use Rattle.thin_files.specs.Thin.{AreDistinct};
ghost use Rattle.thin_files.specs.Places.{place_at};

use crate::thin::places::{place_of, places_of};
use crate::thin::shape::is_same;
use crate::thin::{Node, Variable};
use ltt_base::{List, Memory, Text};
use std::alloc::Global;
use std::collections::BTreeMap;

/// Adds a copy of a text to a list.
fn add(alloc: Global, texts: &mut List<Text>, text: &Text) -> Result<(), Memory>
    ensures { OnOk result (texts.new ≡ texts.old ++ text.now ∷ []) }
{
    match texts.push(Text::copy(alloc, text.bytes())?) {
        Ok(()) => Ok(()),
        Err(_) => Err(Memory),
    }
}

/// The name of the function, and those of the variables.
pub(super) fn global_names(
    alloc: Global,
    function: &Text,
    variables: &[Variable],
) -> Result<List<Text>, Memory>
    ensures { IfOk result (λ names. names ≡ function.now ∷ map (λ v. v.name) variables.now) }
{
    let mut names = List::new(alloc);
    add(alloc, &mut names, function)?;
    for variable in variables {
        add(alloc, &mut names, &variable.name)?;
    }
    Ok(names)
}

/// The names of variables.
pub(super) fn variable_names(alloc: Global, variables: &[Variable]) -> Result<List<Text>, Memory>
    ensures { IfOk result (λ names. names ≡ map (λ v. v.name) variables.now) }
{
    let mut names = List::new(alloc);
    for variable in variables {
        add(alloc, &mut names, &variable.name)?;
    }
    Ok(names)
}

/// The type identifiers of variables.
pub(super) fn identifiers(alloc: Global, variables: &[Variable]) -> Result<List<Text>, Memory>
    ensures { IfOk result (λ ids. ids ≡ map (λ v. v.id) variables.now) }
{
    let mut ids = List::new(alloc);
    for variable in variables {
        add(alloc, &mut ids, &variable.id)?;
    }
    Ok(ids)
}

/// The numbers of the nodes that variables name.
pub(super) fn named_numbers(alloc: Global, variables: &[Variable]) -> Result<List<Text>, Memory>
    ensures { IfOk result (λ numbers. numbers ≡ map (λ v. v.node) variables.now) }
{
    let mut numbers = List::new(alloc);
    for variable in variables {
        add(alloc, &mut numbers, &variable.node)?;
    }
    Ok(numbers)
}

/// The numbers of nodes.
pub(super) fn numbers(alloc: Global, nodes: &[Node]) -> Result<List<Text>, Memory>
    ensures { IfOk result (λ numbers. numbers ≡ map (λ n. n.number) nodes.now) }
{
    let mut numbers = List::new(alloc);
    for node in nodes {
        add(alloc, &mut numbers, &node.number)?;
    }
    Ok(numbers)
}

/// Whether a text is among others.
pub(super) fn holds(texts: &[Text], text: &[u8]) -> bool
    ensures { IsTrue result ↔ Contains texts.now text.now }
{
    for other in texts {
        if is_same(other.bytes(), text) {
            return true;
        }
    }
    false
}

fn stands_at(places: &BTreeMap<&[u8], usize>, text: &[u8], place: usize) -> bool
    ensures { IsTrue result ↔ (place_at places.now text.now ≡ Some place) }
{
    match place_of(places, text) {
        Some(found) => found == place,
        None => false,
    }
}

/// Whether no two texts are the same.
pub(super) fn are_distinct(alloc: Global, texts: &[Text]) -> Result<bool, Memory>
    ensures { IfOk result (λ distinct. IsTrue distinct ↔ AreDistinct texts.now) }
{
    let places = places_of(alloc, texts)?;
    for (place, text) in texts.iter().enumerate() {
        if !stands_at(&places, text.bytes(), place) {
            return Ok(false);
        }
    }
    Ok(true)
}

fn is_among(places: &BTreeMap<&[u8], usize>, text: &[u8]) -> bool
    ensures { IsTrue result ↔ IsSome (place_at places.now text.now) }
{
    place_of(places, text).is_some()
}

/// Whether each node has its number among others.
pub(super) fn are_among(alloc: Global, nodes: &[Node], numbers: &[Text]) -> Result<bool, Memory>
    ensures { IfOk result (λ among. IsTrue among ↔ All (λ n. Contains numbers.now n.number) nodes.now) }
{
    let places = places_of(alloc, numbers)?;
    for node in nodes {
        if !is_among(&places, node.number.bytes()) {
            return Ok(false);
        }
    }
    Ok(true)
}
