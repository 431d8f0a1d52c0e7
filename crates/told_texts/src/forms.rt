// Forms of units in short.
use crate::making::push_made;
use crate::values::{show, show_item, show_type};
use ir_values::{Attach, Const, Form, Head, HeaderKind, MetaItem, Param, Ty};
use ltt_base::{List, Memory, Text};
use std::alloc::Global;

fn push(out: &mut Text, text: &str) -> Result<(), Memory> {
    out.extend(text.as_bytes())
}

/// Words, with a sign before each.
pub fn show_words(out: &mut Text, sign: &str, words: &[Text]) -> Result<(), Memory> {
    for word in words {
        push(out, sign)?;
        out.extend(word.bytes())?;
    }
    Ok(())
}

/// Attachments, each as ` !kind=node`.
pub fn show_attached(out: &mut Text, attached: &[Attach]) -> Result<(), Memory> {
    for attach in attached {
        push(out, " !")?;
        out.extend(attach.kind.bytes())?;
        push(out, "=")?;
        out.extend(attach.node.bytes())?;
    }
    Ok(())
}

/// An alignment that may be there, and may be taken.
pub fn show_align(alloc: Global, out: &mut Text, align: Option<Option<u64>>) -> Result<(), Memory> {
    match align {
        Some(Some(align)) => push_made(out, format!(in alloc; " align {}", align)),
        Some(None) => push(out, " align none"),
        None => Ok(()),
    }
}

fn show_linkage(out: &mut Text, linkage: &Option<Text>) -> Result<(), Memory> {
    match linkage {
        Some(word) => {
            out.extend(word.bytes())?;
            push(out, " ")
        }
        None => Ok(()),
    }
}

fn show_parameter(alloc: Global, out: &mut Text, parameter: &Param) -> Result<(), Memory> {
    show_type(alloc, out, &parameter.ty)?;
    show_words(out, " +", parameter.left.items())?;
    if let Some(name) = &parameter.name {
        push(out, " ")?;
        out.extend(name.bytes())?;
    }
    push(out, "; ")
}

fn show_head(alloc: Global, out: &mut Text, head: &Head) -> Result<(), Memory> {
    show_linkage(out, &head.linkage)?;
    show_type(alloc, out, &head.result)?;
    push(out, " ")?;
    out.extend(head.name.bytes())?;
    push(out, " (")?;
    for parameter in head.params.items() {
        show_parameter(alloc, out, parameter)?;
    }
    push(out, if head.dots { "...)" } else { ")" })?;
    show_words(out, " +", head.left.items())?;
    show_attached(out, head.attached.items())
}

fn show_initial(alloc: Global, out: &mut Text, init: &Option<Const>) -> Result<(), Memory> {
    match init {
        Some(constant) => {
            push(out, " = ")?;
            show(alloc, out, constant)
        }
        None => Ok(()),
    }
}

fn show_body(alloc: Global, out: &mut Text, ty: &Option<Ty>) -> Result<(), Memory> {
    match ty {
        None => push(out, " opaque"),
        Some(ty) => {
            push(out, " ")?;
            show_type(alloc, out, ty)
        }
    }
}

fn show_items(alloc: Global, out: &mut Text, items: &List<MetaItem>) -> Result<(), Memory> {
    for item in items.items() {
        push(out, " ")?;
        show_item(alloc, out, item)?;
    }
    Ok(())
}

fn header(kind: HeaderKind) -> &'static str {
    match kind {
        HeaderKind::Source => "source ",
        HeaderKind::Layout => "layout ",
        HeaderKind::Triple => "triple ",
    }
}

// the word of a form, and the text that names it
fn show_named(out: &mut Text, word: &str, name: &Text) -> Result<(), Memory> {
    push(out, word)?;
    out.extend(name.bytes())
}

/// A form: its sort, then its values.
pub fn show_form(alloc: Global, out: &mut Text, form: &Form) -> Result<(), Memory> {
    match form {
        Form::DeclareForm { head } => show_head(alloc, out, head),
        Form::DefineForm { head } => show_head(alloc, out, head),
        Form::VariableForm {
            name,
            linkage,
            constant,
            ty,
            init,
            align,
            attached,
        } => {
            show_linkage(out, linkage)?;
            push(out, if *constant { "constant " } else { "" })?;
            show_type(alloc, out, ty)?;
            show_named(out, " ", name)?;
            show_initial(alloc, out, init)?;
            show_align(alloc, out, *align)?;
            show_attached(out, attached.items())
        }
        Form::HeaderForm { kind, value } => show_named(out, header(*kind), value),
        Form::TypeForm { name, ty } => {
            show_named(out, "type ", name)?;
            show_body(alloc, out, ty)
        }
        Form::ComdatForm { name } => show_named(out, "comdat ", name),
        Form::AttributesForm { number } => show_named(out, "attributes ", number),
        Form::LabelForm { name } => show_named(out, "label ", name),
        Form::CloseForm => push(out, "close"),
        Form::MetadataForm {
            name,
            distinct,
            items,
        } => {
            show_named(out, if *distinct { "distinct " } else { "node " }, name)?;
            show_items(alloc, out, items)
        }
        Form::SummaryForm { number } => show_named(out, "summary ", number),
        Form::TableForm { name, funcs } => {
            show_named(out, "table ", name)?;
            show_words(out, " ", funcs.items())
        }
        Form::LeftForm { word } => show_named(out, "left ", word),
        _ => push(out, "other"),
    }
}
