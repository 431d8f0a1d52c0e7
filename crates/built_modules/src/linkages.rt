// The linkages of variables and functions.
ghost use Rattle.std.specs.Prelude.{◌≡◌};
ghost use Rattle.std.specs.Option.{option_copied};
ghost use Rattle.built_modules.specs.Linkages as spec;

use ir_values::Linkage;
use ltt_base::Text;

fn is_private(word: &[u8]) -> bool
    ensures { result ≡ spec.is_private word.now }
{
    word == b"private".as_slice() || word == b"internal".as_slice()
}

fn is_weak(word: &[u8]) -> bool
    ensures { result ≡ spec.is_weak word.now }
{
    word == b"linkonce".as_slice()
        || word == b"weak".as_slice()
        || (word == b"linkonce_odr".as_slice() || word == b"weak_odr".as_slice())
}

fn worded_linkage(word: &[u8]) -> Linkage
    ensures { result ≡ spec.worded_linkage word.now }
{
    if is_private(word) {
        Linkage::Private
    } else if is_weak(word) {
        Linkage::Weak
    } else {
        Linkage::Strong
    }
}

/// The linkage of a declaration, or of a definition, by its word if it has one.
///
/// Source: LLVM Language Reference, "Linkage Types".
pub(crate) fn linkage_of(declared: bool, word: Option<&Text>) -> Linkage
    ensures { result ≡ spec.linkage_of declared (option_copied word.entry) }
{
    if declared {
        return Linkage::External;
    }
    match word {
        Some(word) => worded_linkage(word.bytes()),
        None => Linkage::Strong,
    }
}
