// The function at which a run begins.
ghost use Rattle.std.specs.Prelude.{◌≡◌, [], IfSome};
ghost use Rattle.type_metadata.specs.declared.objects.Denoted.TheVariants as denoted;
ghost use Rattle.type_metadata.specs.Counted.{AreCounted};
ghost use Rattle.ir_meaning.specs.Starts.{IsEntry};
ghost use Rattle.source_runs.specs.Entries as spec;

use ir_meaning::is_entry;
use ir_values::Module;
use type_metadata::{Denoted, Object, denotes};

/// The function of this name at which a run may begin: it is the definition that the name denotes, it isn't private, and
/// it has no parameters. Names are compared as bytes. Takes no memory.
///
/// Source: LLVM Language Reference, "Linkage Types".
pub fn entry_of(modules: &[Module], name: &[u8]) -> Option<Object>
    requires { AreCounted modules.now }
    ensures value { result ≡ spec.entry_of modules.now name.now }
    ensures entry { IfSome result (λ entry. IsEntry modules.now entry []) }
{
    match denotes(modules, 0, name) {
        Denoted::Item(object) => entry_at(modules, object),
        Denoted::External => None,
    }
}

fn entry_at(modules: &[Module], object: Object) -> Option<Object>
    ensures value { result ≡ spec.entry_at modules.now (denoted.Item object) }
    ensures entry { IfSome result (λ entry. IsEntry modules.now entry []) }
{
    if is_entry(modules, object, &[]) {
        Some(object)
    } else {
        None
    }
}
