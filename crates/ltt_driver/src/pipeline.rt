// From the text of a file to what a command makes of it.
ghost use Rattle.std.specs.Prelude.{◌≡◌, ◌≤◌, true, false, length, IfOk, OnOk, IsErrOf, ℕ, List, [], unwrap_or};
ghost use Rattle.ltt_base.specs.declared.refusal.Refusal.{Refusal};
ghost use Rattle.ltt_base.specs.declared.refusal.Fault.{Fault};
ghost use Rattle.ltt_base.specs.declared.refusal.Placed.{Placed};
ghost use Rattle.ir_values.specs.declared.units.Unit as unit;
ghost use Rattle.source_runs.specs.Words.{answers_of};
ghost use Rattle.source_runs.specs.Lines as spec;
ghost use Rattle.source_runs.specs.Runs.{IsSource};
ghost use Rattle.ltt_driver.specs.Files.{text_limit, IsChecked, IsUnchecked, IsLoweredTo, IsNotLowered, IsModuleOf, IsRun, IsRunOf, HasNoEntry, IsNotRun, Refuses, form_refusal, entry_refusal};

use ir_check::{check_output, check_source, check_units};
use ir_meaning::Outcome;
use ir_memories::SPtr;
use ir_text::read_units;
use ir_values::{Module, Unit};
use ltt_base::{Code, Fault, List, Memory, Place, Placed, Refusal, Text};
use source_runs::{answers_of, entry_of, run_source};
use std::alloc::Global;
use test_lowering::lower_thin;
use thin_files::thin_of;

/// The units of a file's text, if none has a flaw, or the refusal of the text. Places have the file 1.
fn checked_units(alloc: Global, output: bool, text: &[u8]) -> Result<List<Placed<Unit>>, Fault>
    requires { length text.now ≤ text_limit }
    ensures checked { IfOk result (IsChecked output text.now) }
    ensures refused { (refusal : Refusal) → IsErrOf result (Fault.Refused refusal) → IsUnchecked output text.now refusal }
{
    let units = read_units(alloc, text, 1)?;
    match check_units(alloc, output, units.items()) {
        Ok(()) => Ok(units),
        Err(fault) => Err(fault),
    }
}

/// That a file's text is accepted, or the refusal of the text.
pub fn check_text(alloc: Global, text: &[u8]) -> Result<(), Fault>
    requires { length text.now ≤ text_limit }
    ensures checked { OnOk result ((units : List (Placed unit.Unit)) × IsChecked false text.now units) }
    ensures refused { (refusal : Refusal) → IsErrOf result (Fault.Refused refusal) → IsUnchecked false text.now refusal }
{
    match checked_units(alloc, false, text) {
        Ok(_) => Ok(()),
        Err(fault) => Err(fault),
    }
}

/// The module of a source's text, if none of its units has a flaw, or the refusal of the text. Places have the file 1.
fn source_of(alloc: Global, text: &[u8]) -> Result<Module, Fault>
    requires { length text.now ≤ text_limit }
    ensures made { IfOk result (IsModuleOf false text.now) }
    ensures refused { (refusal : Refusal) → IsErrOf result (Fault.Refused refusal) → IsUnchecked false text.now refusal }
{
    let units = read_units(alloc, text, 1)?;
    check_source(alloc, units.items(), 1)
}

/// The module of an output's text, if none of its units has a flaw, or the refusal of the text. Places have the file 1.
pub fn output_of(alloc: Global, text: &[u8]) -> Result<Module, Fault>
    requires { length text.now ≤ text_limit }
    ensures made { IfOk result (IsModuleOf true text.now) }
    ensures refused { (refusal : Refusal) → IsErrOf result (Fault.Refused refusal) → IsUnchecked true text.now refusal }
{
    let units = read_units(alloc, text, 1)?;
    check_output(alloc, units.items(), 1)
}

// The refusal of a file in which no run begins at this name.
fn no_entry(alloc: Global, entry: &[u8]) -> Fault
    ensures { Refuses (entry_refusal entry.now) result }
{
    match entry_word(alloc, entry) {
        Ok(word) => Fault::Refused(Refusal {
            code: Code::E05,
            place: Place {
                file: 0,
                line: 0,
                column: 0,
            },
            word,
        }),
        Err(Memory) => Fault::Memory,
    }
}

fn entry_word(alloc: Global, entry: &[u8]) -> Result<Text, Memory>
    ensures { IfOk result (λ word. word ≡ (entry_refusal entry.now).word) }
{
    let mut word = Text::copy(alloc, b"@")?;
    word.extend(entry)?;
    Ok(word)
}

/// What modules come to in so many steps, from the function of this name on, or the refusal of the name.
fn run_modules(
    alloc: Global,
    modules: &[Module],
    steps: u64,
    entry: &[u8],
    answers: &[u64],
) -> Result<Outcome<SPtr>, Fault>
    requires { IsSource modules.now }
    ensures ran { IfOk result (IsRunOf modules.now steps entry.now answers.now) }
    ensures refused { (refusal : Refusal) → IsErrOf result (Fault.Refused refusal) → HasNoEntry modules.now entry.now refusal }
{
    match entry_of(modules, entry) {
        Some(object) => run_source(alloc, modules, object, answers, steps),
        None => Err(no_entry(alloc, entry)),
    }
}

fn answers_in(alloc: Global, answers: &[u8]) -> Result<List<u64>, Memory>
    ensures { IfOk result (λ ns. ns ≡ unwrap_or (answers_of answers.now) []) }
{
    match answers_of(alloc, answers)? {
        Some(answers) => Ok(answers),
        None => Ok(List::new(alloc)),
    }
}

/// What a text's module comes to in so many steps, from the function of this name on, or the refusal of the text or the name.
/// `answers` is the word that writes the answers.
pub fn run_text(
    alloc: Global,
    steps: u64,
    entry: &[u8],
    answers: &[u8],
    text: &[u8],
) -> Result<Outcome<SPtr>, Fault>
    requires { length text.now ≤ text_limit }
    ensures ran { IfOk result (λ outcome. IsRun steps entry.now (unwrap_or (answers_of answers.now) []) text.now (spec.run_text outcome)) }
    ensures refused { (refusal : Refusal) → IsErrOf result (Fault.Refused refusal) → IsNotRun entry.now text.now refusal }
{
    let module = source_of(alloc, text)?;
    let mut modules = List::new(alloc);
    modules.add(module)?;
    let answers = answers_in(alloc, answers)?;
    run_modules(alloc, modules.items(), steps, entry, answers.items())
}

/// The output module of a file's text, or the refusal of the text. Places have the file 1.
pub fn lower_text(alloc: Global, text: &[u8]) -> Result<Module, Fault>
    requires { length text.now ≤ text_limit }
    ensures lowered { IfOk result (IsLoweredTo text.now) }
    ensures refused { (refusal : Refusal) → IsErrOf result (Fault.Refused refusal) → IsNotLowered text.now refusal }
{
    let units = checked_units(alloc, false, text)?;
    match thin_of(alloc, units.items())? {
        Some(thin) => Ok(lower_thin(alloc, &thin)?),
        None => Err(refused_form(alloc)),
    }
}

// The refusal of a file that isn't of the accepted form.
fn refused_form(alloc: Global) -> Fault
    ensures { Refuses form_refusal result }
{
    match Text::copy(alloc, b"form") {
        Ok(word) => Fault::Refused(Refusal {
            code: Code::E07,
            place: Place {
                file: 1,
                line: 1,
                column: 1,
            },
            word,
        }),
        Err(Memory) => Fault::Memory,
    }
}
