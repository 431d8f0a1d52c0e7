ghost use Rattle.std.specs.Prelude.{◌≡◌, nat_le, ◌≤◌, ◌^◌};
ghost use Rattle.std.specs.List.{list_any};
ghost use Rattle.ir_numbers.specs.Layout.{IsLaidOut};
ghost use Rattle.type_metadata.specs.Carriers as carriers;

use ir_numbers::size_of;
use ir_values::{Entry, Var};

/// The bytes of a variable, and one more where an entry stands at its end. That of a function is 1.
pub fn extent_of(variable: &Var) -> u64
    requires { IsLaidOut variable.now.ty }
    ensures value { result ≡ carriers.extent_of variable.now }
    ensures range { result ≤ 2 ^ 28 }
{
    let size = size_of(&variable.ty);
    if has_entry_from(size, variable.entries.items()) {
        size + 1
    } else {
        size
    }
}

fn has_entry_from(size: u64, entries: &[Entry]) -> bool
    ensures { result ≡ list_any (λ entry. nat_le size entry.offset) entries.now }
{
    for entry in entries {
        if size <= entry.offset {
            return true;
        }
    }
    false
}
