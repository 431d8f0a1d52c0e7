// The numbers of cases.
ghost use Rattle.std.specs.Prelude.{◌≡◌, IfOk};
ghost use Rattle.ir_values.specs.declared.constants.Const.{out-Const};
ghost use Rattle.kept_parts.specs.CaseNumbers as spec;

use check_constants::kept;
use check_types::Types;
use ir_numbers::bits;
use ir_values::{Const, Ty, Width};
use ltt_base::{Memory, Text};
use std::alloc::Global;

fn number_of(width: Width, constant: &Const) -> Option<u64>
    ensures { result ≡ spec.number_of width (out-Const constant.now) }
{
    match constant {
        Const::Int(other, n) => {
            if bits(*other) == bits(width) {
                Some(*n)
            } else {
                None
            }
        }
        _ => None,
    }
}

/// The number that a case of a switch on integers of a width has as its value. `None`: its value is no number of that width.
///
/// Source: LLVM Language Reference, "'switch' Instruction".
pub fn case_number<'a>(
    alloc: Global,
    types: &Types<'a>,
    width: Width,
    case: &'a (Ty, Const, Text),
) -> Result<Option<u64>, Memory>
    ensures { IfOk result (λ n. n ≡ spec.case_number types.now.units width case.now) }
{
    let value = kept(alloc, types, Some(&case.0), &case.1)?;
    Ok(number_of(width, &value))
}
