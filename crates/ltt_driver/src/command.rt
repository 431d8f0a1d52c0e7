// The commands, and the files that each takes.
ghost use Rattle.std.specs.Prelude.{◌≡◌, ◌⊎◌, [], ◌∷◌, codes, map, string_bytes};
ghost use Rattle.ltt_base.specs.Lines as Lines;
ghost use Rattle.ltt_driver.specs.Asked as Asked;
ghost use Rattle.ltt_driver.specs.Outcome.{limit_refusal};
ghost use Rattle.ltt_driver.specs.Telling.{IsAnswer, IsTold, IsWant};

use crate::lines::{files_line, usage_line};
use crate::making::write_made;
use crate::telling::{say, say_memory, say_read_fault, say_refusal};
use ltt_base::{Code, Files, Memory, Place, ReadFault, Refusal, Sink, Text, read_file};
use source_runs::{are_answers, steps_of};
use std::alloc::Global;
use std::marker::Model;

/// The bytes of all texts of a call, at most.
const TEXT_LIMIT: usize = 67_108_864;

/// What is done with a file.
#[derive(Clone, Copy)]
pub enum Kind<'a> {
    /// Writes the output module.
    Lower,
    /// Tells that the file is accepted.
    Check,
    /// Writes an output module again.
    Reprint,
    /// Tells what so many steps come to, from the function of this name on, with the answers that a word writes.
    Run {
        steps: u64,
        entry: &'a [u8],
        answers: &'a [u8],
    },
}

/// A command.
#[derive(Drop)]
pub struct Command<'a> {
    pub kind: Kind<'a>,
}

impl<'a> Model for Command<'a> {
    ghost use Rattle.ltt_driver.specs.Asked as Asked;

    ghost Value = { Asked.Command };

    ghost view = { λ command. Asked.command_in command.kind };
}

/// Does what a command does with the one file. Without a file it tells the usage, and with more than one the limit.
pub fn on_files<F: Files, O: Sink, E: Sink>(
    alloc: Global,
    command: Command<'_>,
    names: &[String],
    files: &mut F,
    out: &mut O,
    err: &mut E,
) -> u8
    ensures answer { IsAnswer (Asked.on_files command.entry (map string_bytes names.now)) (F.held files.old)
        (record { out = O.taken out.old; out_faults = O.faults out.old; err = E.taken err.old; err_faults = E.faults err.old; read_faults = F.faults files.old })
        (record { out = O.taken out.new; out_faults = O.faults out.new; err = E.taken err.new; err_faults = E.faults err.new; read_faults = F.faults files.new })
        result }
    ensures no_form { Asked.on_files command.entry (map string_bytes names.now) ≡ Asked.NoForm → (files.new ≡ files.old) × (out.new ≡ out.old) }
    ensures many_files { Asked.on_files command.entry (map string_bytes names.now) ≡ Asked.TooManyFiles → (files.new ≡ files.old) × (out.new ≡ out.old) }
{
    match names {
        [] => say(2, usage_line(), err),
        [name] => on_file(alloc, command, names, name.as_str(), files, out, err),
        _ => say(6, files_line(), err),
    }
}

/// Does what a command does with its one file. Words with none, or with more, have no form.
pub fn on_one<F: Files, O: Sink, E: Sink>(
    alloc: Global,
    command: Command<'_>,
    names: &[String],
    files: &mut F,
    out: &mut O,
    err: &mut E,
) -> u8
    ensures answer { IsAnswer (Asked.on_one command.entry (map string_bytes names.now)) (F.held files.old)
        (record { out = O.taken out.old; out_faults = O.faults out.old; err = E.taken err.old; err_faults = E.faults err.old; read_faults = F.faults files.old })
        (record { out = O.taken out.new; out_faults = O.faults out.new; err = E.taken err.new; err_faults = E.faults err.new; read_faults = F.faults files.new })
        result }
    ensures no_form { Asked.on_one command.entry (map string_bytes names.now) ≡ Asked.NoForm → (files.new ≡ files.old) × (out.new ≡ out.old) }
    ensures many_files { Asked.on_one command.entry (map string_bytes names.now) ≡ Asked.TooManyFiles → (files.new ≡ files.old) × (out.new ≡ out.old) }
{
    match names {
        [] => say(2, usage_line(), err),
        [name] => on_file(alloc, command, names, name.as_str(), files, out, err),
        _ => say(2, usage_line(), err),
    }
}

/// Runs a file, by the words behind `run`: the number of steps, the name of the entry, the answers, and the file.
pub fn on_run<F: Files, O: Sink, E: Sink>(
    alloc: Global,
    words: &[String],
    files: &mut F,
    out: &mut O,
    err: &mut E,
) -> u8
    ensures answer { IsAnswer (Asked.run_asked (map string_bytes words.now)) (F.held files.old)
        (record { out = O.taken out.old; out_faults = O.faults out.old; err = E.taken err.old; err_faults = E.faults err.old; read_faults = F.faults files.old })
        (record { out = O.taken out.new; out_faults = O.faults out.new; err = E.taken err.new; err_faults = E.faults err.new; read_faults = F.faults files.new })
        result }
    ensures no_form { Asked.run_asked (map string_bytes words.now) ≡ Asked.NoForm → (files.new ≡ files.old) × (out.new ≡ out.old) }
    ensures many_files { Asked.run_asked (map string_bytes words.now) ≡ Asked.TooManyFiles → (files.new ≡ files.old) × (out.new ≡ out.old) }
{
    let [steps, entry, answers, names @ ..] = words else {
        return say(2, usage_line(), err);
    };
    let Some(steps) = steps_of(steps.as_bytes()) else {
        return say(2, usage_line(), err);
    };
    if !are_answers(answers.as_bytes()) {
        return say(2, usage_line(), err);
    }
    let command = Command {
        kind: Kind::Run {
            steps,
            entry: entry.as_bytes(),
            answers: answers.as_bytes(),
        },
    };
    on_files(alloc, command, names, files, out, err)
}

/// Does what a command does with the file of this name, which is the only one.
fn on_file<F: Files, O: Sink, E: Sink>(
    alloc: Global,
    command: Command<'_>,
    names: &[String],
    name: &str,
    files: &mut F,
    out: &mut O,
    err: &mut E,
) -> u8
    requires { map string_bytes names.now ≡ name.now ∷ [] }
    ensures { IsAnswer (Asked.OneFile command.entry name.now) (F.held files.old)
        (record { out = O.taken out.old; out_faults = O.faults out.old; err = E.taken err.old; err_faults = E.faults err.old; read_faults = F.faults files.old })
        (record { out = O.taken out.new; out_faults = O.faults out.new; err = E.taken err.new; err_faults = E.faults err.new; read_faults = F.faults files.new })
        result }
{
    match read_file(alloc, files, name, TEXT_LIMIT) {
        Ok(text) => write_made(alloc, command, names, text.bytes(), out, err),
        Err(ReadFault::Failed) => say_read_fault(alloc, name.as_bytes(), err),
        Err(ReadFault::TooLong) => say_too_long(alloc, names, err),
        Err(ReadFault::Memory) => say_memory(err),
    }
}

/// Tells that the first file passes the limit of all texts.
fn say_too_long<E: Sink>(alloc: Global, names: &[String], err: &mut E) -> u8
    ensures { IsTold 6 (Lines.refusal_line (map string_bytes names.now) (limit_refusal 1 (codes "text")))
        (record { taken = E.taken err.old; faults = E.faults err.old })
        (record { taken = E.taken err.new; faults = E.faults err.new })
        result
        ⊎ IsWant
        (record { taken = E.taken err.old; faults = E.faults err.old })
        (record { taken = E.taken err.new; faults = E.faults err.new })
        result }
{
    match Text::copy(alloc, b"text") {
        Ok(word) => say_refusal(
            alloc,
            names,
            &Refusal {
                code: Code::E12,
                place: Place {
                    file: 1,
                    line: 0,
                    column: 0,
                },
                word,
            },
            err,
        ),
        Err(Memory) => say_memory(err),
    }
}
