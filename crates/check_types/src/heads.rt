// What types are, with names followed.
ghost use Rattle.std.specs.Prelude.{◌≡◌, length};
ghost use Rattle.std.specs.Option.{option_copied};
ghost use Rattle.check_types.specs.Heads as spec;

use crate::ends::Types;
use crate::named::named_type;
use check_names::Context;
use ir_values::Ty;

#[tactic(auto, using(crate::proofs::HeadLemmas::followed_next), unfolding(crate::specs::Heads::followed))]
fn followed<'a>(context: &Context<'a>, name: &'a [u8]) -> Option<&'a Ty>
    ensures { option_copied result ≡ spec.followed context.now.units (length context.now.units) name.now }
{
    let mut name = name;
    for names in (0..context.units().len()).rev() {
        let _ = names;
        match named_type(context, name) {
            Some(Ty::Named(next)) => name = next.bytes(),
            Some(Ty::Left(_)) => return None,
            Some(ty) => return Some(ty),
            None => return None,
        }
    }
    None
}

/// What a name stands for in the end, which is no name.
///
/// None: that isn't known, since the name is undefined, opaque or endless, or leads to such a name or to a type that is left out.
#[tactic(auto, unfolding(crate::specs::Heads::named_head))]
pub fn named_head<'a>(types: &Types<'a>, name: &'a [u8]) -> Option<&'a Ty>
    ensures { option_copied result ≡ spec.named_head types.now.units name.now }
{
    if types.is_endless(name) {
        None
    } else {
        followed(types.context(), name)
    }
}

/// A type with the names followed that stand for the whole of it. None: it isn't known.
pub fn head<'a>(types: &Types<'a>, ty: &'a Ty) -> Option<&'a Ty>
    ensures { option_copied result ≡ spec.head types.now.units ty.now }
{
    match ty {
        Ty::Named(name) => named_head(types, name.bytes()),
        Ty::Left(_) => None,
        _ => Some(ty),
    }
}
