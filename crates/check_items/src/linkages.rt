// Linkage words.
ghost use Rattle.std.specs.Prelude.{◌≡◌, IfOk};
ghost use Rattle.std.specs.Option.{option_copied};
ghost use Rattle.check_items.specs.Linkages as spec;

use check_names::{Flaw, worded_when};
use ltt_base::{Code, Memory, Text};
use std::alloc::Global;

fn is_left_linkage(word: &[u8]) -> bool
    ensures { result ≡ spec.is_left_linkage word.now }
{
    word == b"available_externally".as_slice()
        || word == b"common".as_slice()
        || (word == b"extern_weak".as_slice() || word == b"appending".as_slice())
}

/// The flaw of a linkage word that is left out.
///
/// Source: LLVM Language Reference, "Linkage Types".
pub fn linkage_flaw(alloc: Global, linkage: Option<&Text>) -> Result<Option<Flaw>, Memory>
    ensures { IfOk result (λ flaw. flaw ≡ spec.linkage_flaw (option_copied linkage.entry)) }
{
    match linkage {
        Some(word) => worded_when(
            alloc,
            is_left_linkage(word.bytes()),
            Code::E07,
            word.bytes(),
        ),
        None => Ok(None),
    }
}

/// Whether a linkage word is `external`.
pub fn is_external(linkage: Option<&Text>) -> bool
    ensures { result ≡ spec.is_external (option_copied linkage.entry) }
{
    match linkage {
        Some(word) => word.bytes() == b"external".as_slice(),
        None => false,
    }
}
