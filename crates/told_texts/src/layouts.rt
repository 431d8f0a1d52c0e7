// Layouts of identifiers, and the tables of their functions.
ghost use Rattle.std.specs.Prelude.{◌≡◌, ◌<◌, [], ◌∷◌, ◌++◌, IfOk, IfSome, OnOk, replicate};
ghost use Rattle.std.specs.List.{range_with_len};
ghost use Rattle.global_layout.specs.Layout.{IsShape};
ghost use Rattle.global_layout.specs.Examples.{example_ids};

use crate::making::push_made;
use crate::telling::first;
use global_layout::{IdMembers, Layout, Shape, arrange};
use jump_tables::{entry_of, tables};
use ltt_base::{Code, Fault, List, Memory, Text};
use std::alloc::Global;

// Adds an identifier of these objects.
fn add_id(alloc: Global, ids: &mut List<IdMembers>, objects: &[u32]) -> Result<(), Memory>
    ensures { OnOk result (ids.new ≡ ids.old ++ record { members = objects.now } ∷ []) }
{
    match Vec::from_slice(alloc, objects) {
        Ok(members) => ids.add(IdMembers {
            members: List::from_vec(members),
        }),
        Err(_) => Err(Memory),
    }
}

// Identifiers of objects 0 and 1, of 1 and 2, and of 3.
fn three_ids(alloc: Global) -> Result<List<IdMembers>, Memory>
    ensures { IfOk result (λ ids. ids ≡ example_ids) }
{
    let mut ids = List::new(alloc);
    add_id(alloc, &mut ids, &[0, 1])?;
    add_id(alloc, &mut ids, &[1, 2])?;
    add_id(alloc, &mut ids, &[3])?;
    Ok(ids)
}

// The layout of these identifiers over four objects of one shape.
fn four(alloc: Global, shape: Shape) -> Result<Layout, Fault>
    requires { IsShape shape }
{
    let ids = three_ids(alloc)?;
    let shapes = [shape, shape, shape, shape];
    arrange(alloc, ids.items(), &shapes)
}

fn first_objects(alloc: Global, count: u32) -> Result<List<u32>, Memory>
    ensures { IfOk result (λ objects. objects ≡ range_with_len 0 count) }
{
    let mut objects = List::new(alloc);
    for object in 0..count {
        objects.add(object)?;
    }
    Ok(objects)
}

fn alike(alloc: Global, shape: Shape, count: u32) -> Result<List<Shape>, Memory>
    ensures { IfOk result (λ shapes. shapes ≡ replicate count shape) }
{
    let mut shapes = List::new(alloc);
    for _object in 0..count {
        shapes.add(shape)?;
    }
    Ok(shapes)
}

// The layout of so many objects of one shape, which one identifier lists.
fn one_id(alloc: Global, shape: Shape, count: u32) -> Result<Layout, Fault>
    requires shape { IsShape shape }
    requires some { 0 < count }
{
    let members = first_objects(alloc, count)?;
    let shapes = alike(alloc, shape, count)?;
    let ids = [IdMembers { members }];
    arrange(alloc, &ids, shapes.items())
}

// An object of eight bytes.
fn word(function: bool) -> Shape
    ensures { IsShape result }
{
    Shape {
        function,
        extent: 8,
        align: 8,
        before: 0,
        after: 0,
    }
}

// An object of one byte at a multiple of 4,096.
fn page(function: bool) -> Shape
    ensures { IsShape result }
{
    Shape {
        function,
        extent: 1,
        align: 4096,
        before: 0,
        after: 0,
    }
}

// A word, a page, or so many bytes at any address.
fn shape(function: bool, name: &str) -> Option<Shape>
    ensures { IfSome result IsShape }
{
    match name {
        "word" => Some(word(function)),
        "page" => Some(page(function)),
        _ => bytes(function, name.parse::<u64>().unwrap_or(0)),
    }
}

fn bytes(function: bool, extent: u64) -> Option<Shape>
    ensures { IfSome result IsShape }
{
    if extent == 0 {
        return None;
    }
    Some(Shape {
        function,
        extent,
        align: 1,
        before: 0,
        after: 0,
    })
}

fn layout(alloc: Global, count: &str, shape: Shape) -> Result<Layout, Fault>
    requires { IsShape shape }
{
    let count = count.parse::<u32>().unwrap_or(0);
    if count == 0 {
        return four(alloc, shape);
    }
    one_id(alloc, shape, count)
}

fn tell_home(alloc: Global, out: &mut Text, layout: &Layout, object: u32) -> Result<(), Memory> {
    match layout.home(object) {
        Some(home) => {
            let sort = if home.table { "table" } else { "variable" };
            push_made(
                out,
                format!(in alloc; "{} {} from {}\n", sort, home.number, home.offset),
            )
        }
        None => out.extend(b"none\n"),
    }
}

fn tell_length(alloc: Global, out: &mut Text, layout: &Layout, group: u32) -> Result<(), Memory> {
    match layout.groups().get(group as usize) {
        Some(group) => push_made(out, format!(in alloc; "{} bytes\n", group.length)),
        None => out.extend(b"none\n"),
    }
}

fn tell_entry(alloc: Global, out: &mut Text, layout: &Layout, object: u32) -> Result<(), Memory> {
    match entry_of(layout, object) {
        Some((table, offset)) => {
            push_made(out, format!(in alloc; "table {} from {}\n", table, offset))
        }
        None => out.extend(b"none\n"),
    }
}

fn tell_table(alloc: Global, out: &mut Text, layout: &Layout, at: u32) -> Result<(), Memory> {
    let all = tables(alloc, layout)?;
    match all.get(at as usize) {
        Some(table) => push_made(out, format!(in alloc; "{} functions\n", table.funcs.len())),
        None => out.extend(b"none\n"),
    }
}

fn tell_answer(alloc: Global, out: &mut Text, layout: &Layout, asked: &str) -> Result<(), Memory> {
    let (word, number) = first(asked);
    let number = number.parse::<u32>().unwrap_or(0);
    match word {
        "home" => tell_home(alloc, out, layout, number),
        "group" => tell_length(alloc, out, layout, number),
        "entry" => tell_entry(alloc, out, layout, number),
        "table" => tell_table(alloc, out, layout, number),
        _ => out.extend(b"no such question\n"),
    }
}

fn tell_answers(alloc: Global, out: &mut Text, layout: &Layout, text: &str) -> Result<(), Memory> {
    for asked in text.split('\n') {
        tell_answer(alloc, out, layout, asked)?;
    }
    Ok(())
}

/// Tells of the layout of four objects, or of so many that one identifier lists, what each line asks: the home of an object, the
/// bytes of a group, the entry of a function, the functions of a table.
pub fn tell(alloc: Global, out: &mut Text, words: &str, text: &[u8]) -> Result<(), Memory> {
    let (sort, words) = first(words);
    let (count, word) = first(words);
    let Some(shape) = shape(sort == "functions", word) else {
        return out.extend(b"no shape");
    };
    match layout(alloc, count, shape) {
        Ok(layout) => tell_answers(alloc, out, &layout, str::from_utf8(text).unwrap_or("")),
        Err(Fault::Refused(refusal)) => {
            out.extend(if refusal.code == Code::E12 {
                b"E12 "
            } else {
                b"??? "
            })?;
            out.extend(refusal.word.bytes())
        }
        Err(Fault::Memory) => Err(Memory),
    }
}
