ghost use Rattle.bit_sets.specs.Laws as law;

/// Laws: at every address of the combined variable or table, each shape of a test is true exactly at the
/// addresses of members.
///
/// Source: Control Flow Integrity Design, "Forward-Edge CFI for Virtual Calls".
pub fn tests_are_exact()
    ensures unsat { law.UnsatIsExact }
    ensures single { law.SingleIsExact }
    ensures all_ones { law.AllOnesIsExact }
    ensures inline { law.InlineIsExact }
    ensures byte_array { law.ByteArrayIsExact }
{}

/// Laws: in the bytes the bits under a spot's mask, from its start on, are those of its set, and a spot
/// stands exactly for a byte array.
///
/// Source: Control Flow Integrity Design, on byte arrays.
pub fn lanes_hold()
    ensures hold { law.LanesHold }
    ensures spots { law.ArraysHaveSpots }
{}

/// A law: each kind is that of some members.
pub fn kinds_are_met()
    ensures { law.KindsAreMet }
{}
