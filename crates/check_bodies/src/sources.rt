ghost use Rattle.std.specs.Prelude.{◌≡◌, ℕ, List, cond, false, IfOk, OnOk};
ghost use Rattle.std.specs.Str.{bytes_eq};
ghost use Rattle.check_bodies.specs.Blocks as spec;
ghost use Rattle.check_bodies.specs.Sources.{found, FindsSources};

use crate::blocks::{BlockMark, Edge};
use ltt_base::{List, Memory, Text};
use std::alloc::Global;
use std::collections::BTreeMap;

fn is_same_mark(one: BlockMark, other: BlockMark) -> bool
    ensures { result ≡ spec.is_same_mark one other }
{
    one.start == other.start && one.number == other.number
}

fn is_last(marks: &[BlockMark], mark: BlockMark) -> bool
    ensures { result ≡ spec.is_last marks.now mark }
{
    match marks.get(marks.len().saturating_sub(1)) {
        Some(last) => is_same_mark(*last, mark),
        None => false,
    }
}

// Adds a block behind others, if it isn't the last of them.
fn add_source(marks: &mut List<BlockMark>, mark: BlockMark) -> Result<(), Memory>
    ensures { OnOk result (marks.new ≡ spec.with_source marks.old mark) }
{
    if is_last(marks.items(), mark) {
        return Ok(());
    }
    marks.add(mark)
}

fn taken_out(alloc: Global, map: &mut BTreeMap<Text, List<BlockMark>>, to: &Text) -> List<BlockMark>
    ensures value { result ≡ found to.now map.old }
    ensures rest { (q : List ℕ) → bytes_eq to.now q ≡ false → found q map.new ≡ found q map.old }
{
    match map.remove(to) {
        Some(marks) => marks,
        None => List::new(alloc),
    }
}

fn put_in(
    map: &mut BTreeMap<Text, List<BlockMark>>,
    to: Text,
    marks: List<BlockMark>,
) -> Result<(), Memory>
    ensures { OnOk result ((q : List ℕ) → found q map.new ≡ cond (bytes_eq to q) marks (found q map.old)) }
{
    match map.insert(to, marks) {
        Ok(_) => Ok(()),
        Err(_) => Err(Memory),
    }
}

fn add_edge(
    alloc: Global,
    map: &mut BTreeMap<Text, List<BlockMark>>,
    edge: &Edge,
) -> Result<(), Memory>
    ensures { OnOk result ((q : List ℕ) → found q map.new ≡ spec.with_edge q (found q map.old) edge.now) }
{
    let to = Text::copy(alloc, edge.to.bytes())?;
    let mut marks = taken_out(alloc, map, &edge.to);
    add_source(&mut marks, edge.from)?;
    put_in(map, to, marks)
}

/// The blocks that go to each label.
#[tactic(auto, unfolding(crate::specs::Blocks::sources_behind))]
pub(crate) fn sources_by_label(
    alloc: Global,
    edges: &[Edge],
) -> Result<BTreeMap<Text, List<BlockMark>>, Memory>
    ensures { IfOk result (FindsSources edges.now) }
{
    let mut map = BTreeMap::new(alloc);
    for edge in edges {
        add_edge(alloc, &mut map, edge)?;
    }
    Ok(map)
}

/// The blocks that a map has for a label.
pub(crate) fn marks_at<'a>(
    map: &'a BTreeMap<Text, List<BlockMark>>,
    label: &Text,
) -> &'a [BlockMark]
    ensures { result.now ≡ found label.now map.now }
{
    match map.get(label) {
        Some(marks) => marks.items(),
        None => &[],
    }
}
