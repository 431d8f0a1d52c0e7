// The numbers of nodes.
ghost use Rattle.std.specs.Prelude.{◌≡◌};
ghost use Rattle.kept_parts.specs.NodeNumbers as spec;

use ir_names::value_of;

/// A node's number. One of 2^32 or more, which no accepted file has, is taken as 0.
pub fn node_number(digits: &[u8]) -> u32
    ensures { result ≡ spec.node_number digits.now }
{
    u32::try_from(value_of(digits)).unwrap_or(0)
}
