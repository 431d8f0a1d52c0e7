ghost use Rattle.std.specs.Prelude.{◌≡◌, map};
ghost use Rattle.instruction_grammar.specs.Operations as spec;

/// The operations on two integers.
#[tactic(auto, unfolding(crate::specs::Operations::binary_words))]
pub fn binary_words() -> &'static [&'static str]
    ensures { map (λ text. text.now) result.now ≡ spec.binary_words }
{
    &[
        "add", "sub", "mul", "udiv", "sdiv", "urem", "srem", "shl", "lshr", "ashr", "and", "or",
        "xor",
    ]
}

/// The predicates of comparisons.
#[tactic(auto, unfolding(crate::specs::Operations::compare_words))]
pub fn compare_words() -> &'static [&'static str]
    ensures { map (λ text. text.now) result.now ≡ spec.compare_words }
{
    &[
        "eq", "ne", "ugt", "uge", "ult", "ule", "sgt", "sge", "slt", "sle",
    ]
}

/// The changes of an integer's width.
#[tactic(auto, unfolding(crate::specs::Operations::cast_words))]
pub fn cast_words() -> &'static [&'static str]
    ensures { map (λ text. text.now) result.now ≡ spec.cast_words }
{
    &["zext", "sext", "trunc"]
}
