// The cases of switches.
ghost use Rattle.std.specs.Prelude.{◌≡◌, ◌<◌, ℕ, nat_eq, cond, get_or, length, map, Some, None, IfOk, OnOk};
ghost use Rattle.std.specs.Option.{option_copied};
ghost use Rattle.ir_values.specs.declared.constants.Const.{out-Const};
ghost use Rattle.check_names.specs.Flaws.{each};
ghost use Rattle.kept_parts.specs.CaseNumbers as numbers_spec;
ghost use Rattle.check_instructions.specs.Cases as spec;
ghost use Rattle.check_instructions.specs.Places.{place_of, FindsPlaces};

use check_bodies::Body;
use check_constants::{constant_flaw, kept};
use check_names::{Flaw, counts, when, worded_when};
use check_operands::{label_flaw, other_flaw};
use check_types::{Allowed, Types, head, type_flaw};
use ir_names::integer_word;
use ir_values::{Const, Ty, Width};
use kept_parts::{case_number, width_of};
use ltt_base::{Code, List, Memory, Text};
use std::alloc::Global;
use std::collections::BTreeMap;

fn is_case_value(output: bool, constant: &Const) -> bool
    ensures { result ≡ spec.is_case_value output (out-Const constant.now) }
{
    match constant {
        Const::Int(_, _) => true,
        Const::Number(_, _) => !output,
        Const::Left(_) => true,
        Const::Zero(_) => true,
        _ => false,
    }
}

fn is_valued<'a>(
    alloc: Global,
    types: &Types<'a>,
    case: &'a (Ty, Const, Text),
) -> Result<bool, Memory>
    ensures { IfOk result (λ answer. answer ≡ spec.is_valued types.now.output types.now.units case.now) }
{
    let value = kept(alloc, types, Some(&case.0), &case.1)?;
    Ok(is_case_value(types.context().is_output(), &value))
}

fn case_flaw<'a>(
    alloc: Global,
    types: &Types<'a>,
    body: &Body<'a>,
    ty: &'a Ty,
    case: &'a (Ty, Const, Text),
) -> Result<Option<Flaw>, Memory>
    requires { body.now.units ≡ types.now.units }
    ensures { IfOk result (λ flaw. flaw
        ≡ spec.case_flaw types.now.output types.now.units body.now.head ty.now case.now) }
{
    let written = type_flaw(alloc, types, false, Allowed::Integer, &case.0)?;
    let other = other_flaw(types, false, &case.0, ty);
    let constant = constant_flaw(alloc, types, false, Some(&case.0), &case.1)?;
    let valued = is_valued(alloc, types, case)?;
    let label = label_flaw(alloc, types, body, &case.2)?;
    let value = when(!valued, Code::E06);
    Ok(counts(
        written,
        counts(other, counts(constant, counts(value, label))),
    ))
}

fn each_case_flaw<'a>(
    alloc: Global,
    types: &Types<'a>,
    body: &Body<'a>,
    ty: &'a Ty,
    cases: &'a [(Ty, Const, Text)],
) -> Result<Option<Flaw>, Memory>
    requires { body.now.units ≡ types.now.units }
    ensures { IfOk result (λ flaw. flaw
        ≡ each (spec.case_flaw types.now.output types.now.units body.now.head ty.now) cases.now) }
{
    let mut flaw = None;
    for at in (0..cases.len()).rev() {
        flaw = counts(case_flaw(alloc, types, body, ty, &cases[at])?, flaw);
    }
    Ok(flaw)
}

fn case_numbers<'a>(
    alloc: Global,
    types: &Types<'a>,
    width: Width,
    cases: &'a [(Ty, Const, Text)],
) -> Result<List<Option<u64>>, Memory>
    ensures { IfOk result (λ numbers. numbers ≡ map (numbers_spec.case_number types.now.units width) cases.now) }
{
    let mut numbers = List::new(alloc);
    for case in cases {
        numbers.add(case_number(alloc, types, width, case)?)?;
    }
    Ok(numbers)
}

fn put(map: &mut BTreeMap<u64, usize>, n: u64, at: usize) -> Result<(), Memory>
    ensures { OnOk result ((q : ℕ) → place_of q map.new ≡ cond (nat_eq n q) (Some at) (place_of q map.old)) }
{
    match map.insert(n, at) {
        Ok(_) => Ok(()),
        Err(_) => Err(Memory),
    }
}

fn note(map: &mut BTreeMap<u64, usize>, n: Option<u64>, at: usize) -> Result<(), Memory>
    ensures { OnOk result ((q : ℕ) → place_of q map.new ≡ cond (spec.is_number q n) (Some at) (place_of q map.old)) }
{
    match n {
        Some(n) => put(map, n, at),
        None => Ok(()),
    }
}

fn places(alloc: Global, numbers: &[Option<u64>]) -> Result<BTreeMap<u64, usize>, Memory>
    ensures { IfOk result (FindsPlaces numbers.now) }
{
    let mut map = BTreeMap::new(alloc);
    for at in (0..numbers.len()).rev() {
        note(&mut map, numbers[at], at)?;
    }
    Ok(map)
}

fn is_before(at: usize, place: Option<usize>) -> bool
    ensures { result ≡ spec.is_before at place }
{
    match place {
        Some(place) => place < at,
        None => false,
    }
}

fn repeated_flaw(alloc: Global, width: Width, again: bool, n: u64) -> Result<Option<Flaw>, Memory>
    ensures { IfOk result (λ flaw. flaw ≡ spec.repeated_flaw width again n) }
{
    if !again {
        return Ok(None);
    }
    let word = integer_word(alloc, width, n)?;
    worded_when(alloc, true, Code::E04, word.bytes())
}

fn number_again(
    alloc: Global,
    width: Width,
    numbers: &[Option<u64>],
    map: &BTreeMap<u64, usize>,
    at: usize,
    n: Option<u64>,
) -> Result<Option<Flaw>, Memory>
    requires { FindsPlaces numbers.now map.now }
    ensures { IfOk result (λ flaw. flaw ≡ spec.number_again width numbers.now at n) }
{
    match n {
        Some(n) => repeated_flaw(alloc, width, is_before(at, map.get(&n).copied()), n),
        None => Ok(None),
    }
}

#[tactic(auto, unfolding(crate::specs::Cases::again_from))]
fn numbers_again(
    alloc: Global,
    width: Width,
    numbers: &[Option<u64>],
) -> Result<Option<Flaw>, Memory>
    ensures { IfOk result (λ flaw. flaw ≡ spec.numbers_again width numbers.now) }
{
    let map = places(alloc, numbers)?;
    let mut flaw = None;
    for at in (0..numbers.len()).rev() {
        flaw = counts(
            number_again(alloc, width, numbers, &map, at, numbers[at])?,
            flaw,
        );
    }
    Ok(flaw)
}

fn cases_again<'a>(
    alloc: Global,
    types: &Types<'a>,
    width: Option<Width>,
    cases: &'a [(Ty, Const, Text)],
) -> Result<Option<Flaw>, Memory>
    ensures { IfOk result (λ flaw. flaw ≡ spec.cases_again types.now.units width cases.now) }
{
    match width {
        Some(width) => {
            let numbers = case_numbers(alloc, types, width, cases)?;
            numbers_again(alloc, width, numbers.items())
        }
        None => Ok(None),
    }
}

/// The flaws of a switch's cases: of their types, values and labels, and of a value that stands twice.
pub(crate) fn cases_flaw<'a>(
    alloc: Global,
    types: &Types<'a>,
    body: &Body<'a>,
    ty: &'a Ty,
    cases: &'a [(Ty, Const, Text)],
) -> Result<Option<Flaw>, Memory>
    requires { body.now.units ≡ types.now.units }
    ensures { IfOk result (λ flaw. flaw
        ≡ spec.cases_flaw types.now.output types.now.units body.now.head ty.now cases.now) }
{
    let each = each_case_flaw(alloc, types, body, ty, cases)?;
    let again = cases_again(alloc, types, width_of(head(types, ty)), cases)?;
    Ok(counts(each, again))
}
