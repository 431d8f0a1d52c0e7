ghost use Rattle.std.specs.Prelude.{◌≡◌};
ghost use Rattle.std.specs.Option.{option_copied};
ghost use Rattle.check_names.specs.Spaces as spec;

use ir_names::is_decimal;
use ir_values::Form;
use ltt_base::Text;

/// A set of names in which each name has one definition: globals, named types, and numbers of metadata nodes.
///
/// Source: LLVM Language Reference, "Identifiers" and "Metadata".
#[derive(Clone, Copy)]
pub enum Space {
    Globals,
    Types,
    Nodes,
}

/// What stands before a name of the space.
pub fn sign(space: Space) -> &'static [u8]
    ensures { result.now ≡ spec.sign space }
{
    match space {
        Space::Globals => b"@",
        Space::Types => b"%",
        Space::Nodes => b"!",
    }
}

fn global_of(form: &Form) -> Option<&Text>
    ensures { option_copied result ≡ spec.global_of form.now }
{
    match form {
        Form::VariableForm { name, .. } => Some(name),
        Form::DeclareForm { head } => Some(&head.name),
        Form::DefineForm { head } => Some(&head.name),
        Form::TableForm { name, .. } => Some(name),
        _ => None,
    }
}

fn type_of(form: &Form) -> Option<&Text>
    ensures { option_copied result ≡ spec.type_of form.now }
{
    match form {
        Form::TypeForm { name, .. } => Some(name),
        _ => None,
    }
}

fn node_of(form: &Form) -> Option<&Text>
    ensures { option_copied result ≡ spec.node_of form.now }
{
    match form {
        Form::MetadataForm { name, .. } => {
            if is_decimal(name.bytes()) {
                Some(name)
            } else {
                None
            }
        }
        _ => None,
    }
}

/// The name that a form defines in the space.
pub fn name_in(space: Space, form: &Form) -> Option<&Text>
    ensures { option_copied result ≡ spec.name_in space form.now }
{
    match space {
        Space::Globals => global_of(form),
        Space::Types => type_of(form),
        Space::Nodes => node_of(form),
    }
}
