ghost use Rattle.std.specs.Prelude.{◌≡◌, ◌↔◌, ℕ, ◌-◌, ◌^◌, ◌<◌, ◌≤◌, IsTrue};
ghost use Rattle.std.specs.Int.{rotate_right, w64};
ghost use Rattle.bit_sets.specs.Rotation.{IsOnStep};

/// Whether a distance in bytes is `j * 2^align` for some j up to `size_m1`.
///
/// One rotation tells it: the low bits, which have to be 0, come above all others. That holds for a
/// `size_m1` below `2^(64 - align)`; past it the answer is what the rotation gives.
///
/// Source: Control Flow Integrity Design, "Alignment".
pub fn rotated_in(x: u64, align: u8, size_m1: u64) -> bool
    requires { align < 64 }
    ensures on_step { size_m1 < 2 ^ (64 - align) → IsTrue result ↔ IsOnStep x align size_m1 }
    ensures rotated { IsTrue result ↔ (rotate_right w64 x align ≤ size_m1) }
{
    x.rotate_right(u32::from(align)) <= size_m1
}
