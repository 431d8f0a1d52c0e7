// The lines that tell what a run came to.
ghost use Rattle.std.specs.Prelude.{◌≡◌, ◌++◌, codes, map, decimal, IfOk, OnOk};
ghost use Rattle.ir_meaning.specs.declared.states.Status.{Status};
ghost use Rattle.ir_print.specs.Pieces.{commas, after_commas};
ghost use Rattle.source_runs.specs.Lines as spec;

use crate::names::add_name;
use ir_meaning::{Event, Status};
use ir_memories::{SPtr, Value};
use itoa::Buffer;
use ltt_base::{Memory, Text};
use std::alloc::Global;

fn add_number(line: &mut Text, n: u64) -> Result<(), Memory>
    ensures { OnOk result (line.new ≡ line.old ++ decimal n) }
{
    let mut buffer = Buffer::new();
    line.extend(buffer.format(n).as_bytes())
}

fn pointer_text(p: SPtr) -> &'static [u8]
    ensures { result.now ≡ spec.pointer_text p }
{
    match p {
        SPtr::Null => b"0",
        SPtr::At(_, _) => b"p",
    }
}

fn add_value(line: &mut Text, value: &Value<SPtr>) -> Result<(), Memory>
    ensures { OnOk result (line.new ≡ line.old ++ spec.value_text value.now) }
{
    match value {
        Value::Int(_, n) => add_number(line, *n),
        Value::Ptr(p) => line.extend(pointer_text(*p)),
        Value::Pair(p, _) => line.extend(pointer_text(*p)),
    }
}

fn add_next(line: &mut Text, value: &Value<SPtr>) -> Result<(), Memory>
    ensures { OnOk result (line.new ≡ line.old ++ (codes ", " ++ spec.value_text value.now)) }
{
    line.extend(b", ")?;
    add_value(line, value)
}

/// Adds values, each behind a comma.
fn add_others(line: &mut Text, values: &[Value<SPtr>]) -> Result<(), Memory>
    ensures { OnOk result (line.new ≡ line.old ++ after_commas (map spec.value_text values.now)) }
{
    for value in values {
        add_next(line, value)?;
    }
    Ok(())
}

/// Adds values with commas between them.
fn add_values(line: &mut Text, values: &[Value<SPtr>]) -> Result<(), Memory>
    ensures { OnOk result (line.new ≡ line.old ++ commas (map spec.value_text values.now)) }
{
    let [first, others @ ..] = values else {
        return Ok(());
    };
    add_value(line, first)?;
    add_others(line, others)
}

fn add_answer(line: &mut Text, answer: &Option<Value<SPtr>>) -> Result<(), Memory>
    ensures { OnOk result (line.new ≡ line.old ++ spec.answer_text answer.now) }
{
    let Some(value) = *answer else {
        return Ok(());
    };
    line.extend(b" = ")?;
    add_value(line, &value)
}

/// The line of a call of an external function, `call NAME(A, B) = V`; a void function gives no answer.
///
/// Integers are without sign. Null is `0`, and any other pointer `p`.
pub fn event_line(alloc: Global, event: &Event<SPtr>) -> Result<Text, Memory>
    ensures { IfOk result (λ line. line ≡ spec.event_line event.now) }
{
    let mut line = Text::copy(alloc, b"call ")?;
    add_name(alloc, &mut line, event.name.bytes())?;
    line.extend(b"(")?;
    add_values(&mut line, event.args.items())?;
    line.extend(b")")?;
    add_answer(&mut line, &event.answer)?;
    line.extend(b"\n")?;
    Ok(line)
}

fn add_result(line: &mut Text, returned: &Option<Value<SPtr>>) -> Result<(), Memory>
    ensures { OnOk result (line.new ≡ line.old ++ spec.result_text returned.now) }
{
    let Some(value) = *returned else {
        return Ok(());
    };
    line.extend(b" ")?;
    add_value(line, &value)
}

fn add_status(line: &mut Text, status: Status, returned: &Option<Value<SPtr>>) -> Result<(), Memory>
    ensures { OnOk result (line.new ≡ line.old ++ spec.status_text status returned.now) }
{
    match status {
        Status::Running => line.extend(b"running"),
        Status::Returned => add_returned(line, returned),
        Status::Trapped => line.extend(b"trapped"),
        Status::Starved => line.extend(b"starved"),
        Status::Undefined => line.extend(b"undefined"),
    }
}

fn add_returned(line: &mut Text, returned: &Option<Value<SPtr>>) -> Result<(), Memory>
    ensures { OnOk result (line.new ≡ line.old ++ spec.status_text Status.Returned returned.now) }
{
    line.extend(b"returned")?;
    add_result(line, returned)
}

/// The last line of a run: how it stands, and behind `returned` the value, where there is one.
pub fn status_line(
    alloc: Global,
    status: Status,
    returned: &Option<Value<SPtr>>,
) -> Result<Text, Memory>
    ensures { IfOk result (λ line. line ≡ spec.status_line status returned.now) }
{
    let mut line = Text::new(alloc);
    add_status(&mut line, status, returned)?;
    line.extend(b"\n")?;
    Ok(line)
}
