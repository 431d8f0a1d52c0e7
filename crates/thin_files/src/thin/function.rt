ghost use Rattle.std.specs.Prelude.{◌≡◌, ℕ, List, [], ◌∷◌, map, take, drop, MatchOption};
ghost use Rattle.ir_values.specs.declared.units.Form.{Form};
ghost use Rattle.thin_files.specs.Shape.{forms, head_unit, test_unit, end_unit, function_units};

use crate::thin::units::{HeadUnit, TestUnit, head_unit, is_close, is_end, test_unit};
use ir_values::{Form, Unit};
use ltt_base::{Place, Placed, Text};

/// What the units of the first function say, and the units behind its close.
#[derive(Drop)]
pub(super) struct FunctionUnits<'a> {
    pub place: Place,
    pub name: &'a Text,
    pub pointer: &'a Text,
    pub register: &'a Text,
    pub tested: &'a Text,
    pub rest: &'a [Placed<Unit>],
}

/// What a head and its test say.
struct TestedHead<'a> {
    name: &'a Text,
    pointer: &'a Text,
    register: &'a Text,
    tested: &'a Text,
}

fn tested_head<'a>(head: &'a Form, test: &'a Form, end: &Form) -> Option<TestedHead<'a>>
    ensures { MatchOption result
        ((name pointer register tested : List ℕ) → head.now ≡ head_unit name pointer
        → test.now ≡ test_unit register pointer tested → end.now ≡ end_unit register → ⊥)
        (λ f. (head.now ≡ head_unit f.name.now f.pointer.now)
        × (test.now ≡ test_unit f.register.now f.pointer.now f.tested.now) × (end.now ≡ end_unit f.register.now)) }
{
    match head_unit(head) {
        Some(HeadUnit { name, pointer }) => match test_unit(test, pointer.bytes()) {
            Some(TestUnit { register, tested }) => if is_end(end, register.bytes()) {
                Some(TestedHead {
                    name,
                    pointer,
                    register,
                    tested,
                })
            } else {
                None
            },
            None => None,
        },
        None => None,
    }
}

pub(super) fn function_units(units: &[Placed<Unit>]) -> Option<FunctionUnits<'_>>
    ensures { MatchOption result
        ((name pointer register tested : List ℕ) (rest : List Form)
        → forms units.now ≡ function_units name pointer register tested rest → ⊥)
        (λ f. (forms units.now ≡ function_units f.name.now f.pointer.now f.register.now f.tested.now (forms f.rest.now))
        × (map (λ u. u.place) (take 1 units.now) ≡ f.place ∷ []) × (drop 4 units.now ≡ f.rest.now)) }
{
    match units {
        [head, test, end, close, rest @ ..] if is_close(&close.value.form) => {
            match tested_head(&head.value.form, &test.value.form, &end.value.form) {
                Some(
                    TestedHead {
                        name,
                        pointer,
                        register,
                        tested,
                    },
                ) => {
                    Some(FunctionUnits {
                        place: head.place,
                        name,
                        pointer,
                        register,
                        tested,
                        rest,
                    })
                }
                None => None,
            }
        }
        _ => None,
    }
}
