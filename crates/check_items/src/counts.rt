// How many variables, functions and type entries a file has up to a place.
ghost use Rattle.std.specs.Prelude.{◌≡◌, ◌+◌, ◌-◌, ◌^◌, ◌<◌, cond, min, length, count_by, IfOk};
ghost use Rattle.check_items.specs.Attached as kinds;
ghost use Rattle.check_items.specs.Counts as spec;

use crate::attached::is_type;
use check_names::{Flaw, is_intrinsic, worded_when};
use ir_values::{Attach, Form, Unit};
use ltt_base::{Code, Memory, Placed};
use std::alloc::Global;

/// What the units before a place have: variables, functions that are no intrinsics, both whether declared or defined, and type
/// entries of definitions, repeated ones counted. The count of entries ends at 2^64 - 1.
#[derive(Clone, Copy)]
pub struct Counts {
    pub variables: usize,
    pub functions: usize,
    pub entries: usize,
}

fn is_variable(form: &Form) -> bool
    ensures { result ≡ spec.is_variable form.now }
{
    match form {
        Form::VariableForm { .. } => true,
        _ => false,
    }
}

fn is_function(form: &Form) -> bool
    ensures { result ≡ spec.is_function form.now }
{
    match form {
        Form::DeclareForm { head } => !is_intrinsic(head.name.bytes()),
        Form::DefineForm { .. } => true,
        _ => false,
    }
}

/// The attachments that count: those of a definition.
pub(crate) fn kept_attached(form: &Form) -> &[Attach]
    ensures { result.now ≡ spec.kept_attached form.now }
{
    match form {
        Form::VariableForm { init, attached, .. } => {
            if init.is_none() {
                &[]
            } else {
                attached.items()
            }
        }
        Form::DefineForm { head } => head.attached.items(),
        _ => &[],
    }
}

fn type_count(attached: &[Attach]) -> usize
    ensures { result ≡ count_by kinds.is_type attached.now }
{
    attached.iter().filter(|attach| is_type(attach)).count()
}

fn entry_count(form: &Form) -> usize
    ensures { result ≡ spec.entry_count form.now }
{
    type_count(kept_attached(form))
}

#[tactic(auto, unfolding(crate::specs::Counts::most_entries))]
fn more_entries(entries: usize, more: usize) -> usize
    ensures { result ≡ min (entries + more) spec.most_entries }
{
    entries.saturating_add(more)
}

fn more_when(count: usize, one: bool) -> usize
    requires { count < 2 ^ 64 - 1 }
    ensures { result ≡ count + cond one 1 0 }
{
    if one { count + 1 } else { count }
}

/// The counts before the first unit.
pub fn first_counts(units: &[Placed<Unit>]) -> Counts
    ensures { result ≡ spec.counts_before units.now 0 }
{
    let _ = units;
    Counts {
        variables: 0,
        functions: 0,
        entries: 0,
    }
}

/// The counts before the next unit, from those before the one at a place.
pub fn counted(units: &[Placed<Unit>], at: usize, counts: Counts) -> Counts
    requires inside { at < length units.now }
    requires so_far { counts ≡ spec.counts_before units.now at }
    ensures { result ≡ spec.counts_before units.now (at + 1) }
{
    let form = &units[at].value.form;
    Counts {
        variables: more_when(counts.variables, is_variable(form)),
        functions: more_when(counts.functions, is_function(form)),
        entries: more_entries(counts.entries, entry_count(form)),
    }
}

/// The flaw of a variable that is one more than a file may have, which is 65,536.
pub fn variables_flaw(alloc: Global, counts: Counts) -> Result<Option<Flaw>, Memory>
    ensures { IfOk result (λ flaw. flaw ≡ spec.variables_flaw counts) }
{
    worded_when(alloc, counts.variables >= 65_536, Code::E12, b"variables")
}

/// The flaw of a function that is one more than a file may have, which is 65,536. An intrinsic that is declared doesn't count.
pub fn functions_flaw(alloc: Global, counts: Counts, form: &Form) -> Result<Option<Flaw>, Memory>
    ensures { IfOk result (λ flaw. flaw ≡ spec.functions_flaw counts form.now) }
{
    let past = is_function(form) && counts.functions >= 65_536;
    worded_when(alloc, past, Code::E12, b"functions")
}

/// The flaw of a definition with more type entries than a file may have, which is 1,048,576.
pub fn carriers_flaw(alloc: Global, counts: Counts, form: &Form) -> Result<Option<Flaw>, Memory>
    ensures { IfOk result (λ flaw. flaw ≡ spec.carriers_flaw counts form.now) }
{
    let entries = more_entries(counts.entries, entry_count(form));
    worded_when(alloc, entries > 1_048_576, Code::E12, b"carriers")
}
