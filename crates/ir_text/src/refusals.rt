ghost use Rattle.ir_text.specs.Reading.{Refuses};

use ltt_base::{Code, Fault, Place, Refusal, Text};
use std::alloc::Global;

/// The refusal with this code, place and word.
pub fn refused(alloc: Global, code: Code, place: Place, word: &[u8]) -> Fault
    ensures { Refuses code place word.now result }
{
    match Text::copy(alloc, word) {
        Ok(word) => Fault::Refused(Refusal { code, place, word }),
        Err(_) => Fault::Memory,
    }
}
