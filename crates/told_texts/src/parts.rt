// Readers of names, words and attachments.
use crate::forms::{show_align, show_attached, show_words};
use ir_values::Attach;
use ltt_base::{List, Memory, Text};
use std::alloc::Global;
use unit_grammar::{Input, Stop, global, local};
use word_grammar::{
    attachments, head_attachments, maybe_linkage, maybe_other_linkage, parameter_run,
    variable_places,
};

fn tell_name(out: &mut Text, read: Result<(Text, usize), Stop>) -> Result<usize, Stop> {
    match read {
        Ok((name, behind)) => {
            out.extend(name.bytes())?;
            Ok(behind)
        }
        Err(stop) => Err(stop),
    }
}

fn show_word(out: &mut Text, word: &Option<Text>) -> Result<(), Memory> {
    match word {
        Some(word) => out.extend(word.bytes()),
        None => out.extend(b"none"),
    }
}

fn tell_word(out: &mut Text, read: Result<(Option<Text>, usize), Stop>) -> Result<usize, Stop> {
    match read {
        Ok((word, behind)) => {
            show_word(out, &word)?;
            Ok(behind)
        }
        Err(stop) => Err(stop),
    }
}

fn tell_words(out: &mut Text, read: Result<(List<Text>, usize), Stop>) -> Result<usize, Stop> {
    match read {
        Ok((words, behind)) => {
            show_words(out, " +", words.items())?;
            Ok(behind)
        }
        Err(stop) => Err(stop),
    }
}

fn tell_attached(out: &mut Text, read: Result<(List<Attach>, usize), Stop>) -> Result<usize, Stop> {
    match read {
        Ok((attached, behind)) => {
            show_attached(out, attached.items())?;
            Ok(behind)
        }
        Err(stop) => Err(stop),
    }
}

fn tell_places(alloc: Global, out: &mut Text, input: &Input<'_>) -> Result<usize, Stop> {
    match variable_places(input, 0) {
        Ok((align, behind)) => {
            show_align(alloc, out, align)?;
            Ok(behind)
        }
        Err(stop) => Err(stop),
    }
}

/// Tells what one of these readers gives, and answers how many tokens it takes.
pub fn read_part(
    alloc: Global,
    out: &mut Text,
    name: &str,
    input: &Input<'_>,
) -> Result<usize, Stop> {
    match name {
        "global" => tell_name(out, global(alloc, input, 0)),
        "local" => tell_name(out, local(alloc, input, 0)),
        "linkage" => tell_word(out, maybe_linkage(alloc, input, 0)),
        "other-linkage" => tell_word(out, maybe_other_linkage(alloc, input, 0)),
        "left-words" => tell_words(out, parameter_run(alloc, input, 0)),
        "attached" => tell_attached(out, attachments(alloc, input, 0)),
        "head-attached" => tell_attached(out, head_attachments(alloc, input, 0)),
        "unit-attached" => tell_attached(out, unit_grammar::attachments(alloc, input, 0)),
        _ => tell_places(alloc, out, input),
    }
}
