ghost use Rattle.std.specs.Prelude.{◌≡◌, map};
ghost use Rattle.word_grammar.specs.Attributes as attributes;
ghost use Rattle.word_grammar.specs.Linkage as linkage;
ghost use Rattle.word_grammar.specs.Runs as runs;

#[tactic(auto, unfolding(crate::specs::Linkage::linkage_words))]
pub fn linkage_words() -> &'static [&'static str]
    ensures { map (λ text. text.now) result.now ≡ linkage.linkage_words }
{
    &[
        "private",
        "internal",
        "linkonce",
        "weak",
        "linkonce_odr",
        "weak_odr",
        "external",
        "available_externally",
        "common",
        "extern_weak",
        "appending",
    ]
}

#[tactic(auto, unfolding(crate::specs::Linkage::other_linkage_words))]
pub fn other_linkage_words() -> &'static [&'static str]
    ensures { map (λ text. text.now) result.now ≡ linkage.other_linkage_words }
{
    &[
        "private",
        "internal",
        "linkonce",
        "weak",
        "linkonce_odr",
        "weak_odr",
        "available_externally",
        "common",
        "extern_weak",
        "appending",
    ]
}

#[tactic(auto, unfolding(crate::specs::Attributes::attribute_words))]
pub fn attribute_words() -> &'static [&'static str]
    ensures { map (λ text. text.now) result.now ≡ attributes.attribute_words }
{
    &[
        "zeroext",
        "signext",
        "inreg",
        "noalias",
        "nocapture",
        "nofree",
        "returned",
        "nonnull",
        "noundef",
        "readnone",
        "readonly",
        "writeonly",
        "immarg",
        "dead_on_unwind",
        "noext",
        "writable",
        "allocptr",
        "allocalign",
    ]
}

#[tactic(auto, unfolding(crate::specs::Attributes::attribute_words_with_arguments))]
pub fn attribute_words_with_arguments() -> &'static [&'static str]
    ensures { map (λ text. text.now) result.now ≡ attributes.attribute_words_with_arguments }
{
    &[
        "captures",
        "dereferenceable",
        "dereferenceable_or_null",
        "range",
        "initializes",
        "nofpclass",
        "elementtype",
        "sret",
    ]
}

#[tactic(auto, unfolding(crate::specs::Runs::item_words))]
pub fn item_words() -> &'static [&'static str]
    ensures { map (λ text. text.now) result.now ≡ runs.item_words }
{
    &[
        "dso_local",
        "dso_preemptable",
        "default",
        "hidden",
        "protected",
        "unnamed_addr",
        "local_unnamed_addr",
        "ccc",
        "fastcc",
        "coldcc",
    ]
}

#[tactic(auto, unfolding(crate::specs::Runs::call_words))]
pub fn call_words() -> &'static [&'static str]
    ensures { map (λ text. text.now) result.now ≡ runs.call_words }
{
    &["ccc", "fastcc", "coldcc"]
}

#[tactic(auto, unfolding(crate::specs::Runs::function_words))]
pub fn function_words() -> &'static [&'static str]
    ensures { map (λ text. text.now) result.now ≡ runs.function_words }
{
    &[
        "unnamed_addr",
        "local_unnamed_addr",
        "alwaysinline",
        "builtin",
        "cold",
        "convergent",
        "hot",
        "inlinehint",
        "minsize",
        "mustprogress",
        "nobuiltin",
        "nocallback",
        "nofree",
        "noinline",
        "norecurse",
        "noreturn",
        "nosync",
        "nounwind",
        "optnone",
        "optsize",
        "readnone",
        "readonly",
        "writeonly",
        "argmemonly",
        "speculatable",
        "ssp",
        "sspstrong",
        "sspreq",
        "willreturn",
    ]
}

#[tactic(auto, unfolding(crate::specs::Runs::function_words_with_arguments))]
pub fn function_words_with_arguments() -> &'static [&'static str]
    ensures { map (λ text. text.now) result.now ≡ runs.function_words_with_arguments }
{
    &["memory", "allockind", "allocsize"]
}

#[tactic(auto, unfolding(crate::specs::Runs::instruction_words))]
pub fn instruction_words() -> &'static [&'static str]
    ensures { map (λ text. text.now) result.now ≡ runs.instruction_words }
{
    &[
        "nsw", "nuw", "exact", "disjoint", "nneg", "inbounds", "nusw", "samesign", "inrange",
    ]
}

#[tactic(auto, unfolding(crate::specs::Runs::dropped_words, crate::specs::Attributes::attribute_words, crate::specs::Runs::item_words, crate::specs::Runs::function_words, crate::specs::Runs::instruction_words))]
pub fn dropped_words() -> &'static [&'static str]
    ensures { map (λ text. text.now) result.now ≡ runs.dropped_words }
{
    &[
        "zeroext",
        "signext",
        "inreg",
        "noalias",
        "nocapture",
        "nofree",
        "returned",
        "nonnull",
        "noundef",
        "readnone",
        "readonly",
        "writeonly",
        "immarg",
        "dead_on_unwind",
        "noext",
        "writable",
        "allocptr",
        "allocalign",
        "dso_local",
        "dso_preemptable",
        "default",
        "hidden",
        "protected",
        "unnamed_addr",
        "local_unnamed_addr",
        "ccc",
        "fastcc",
        "coldcc",
        "unnamed_addr",
        "local_unnamed_addr",
        "alwaysinline",
        "builtin",
        "cold",
        "convergent",
        "hot",
        "inlinehint",
        "minsize",
        "mustprogress",
        "nobuiltin",
        "nocallback",
        "nofree",
        "noinline",
        "norecurse",
        "noreturn",
        "nosync",
        "nounwind",
        "optnone",
        "optsize",
        "readnone",
        "readonly",
        "writeonly",
        "argmemonly",
        "speculatable",
        "ssp",
        "sspstrong",
        "sspreq",
        "willreturn",
        "nsw",
        "nuw",
        "exact",
        "disjoint",
        "nneg",
        "inbounds",
        "nusw",
        "samesign",
        "inrange",
    ]
}

#[tactic(auto, unfolding(crate::specs::Runs::dropped_words_with_arguments, crate::specs::Attributes::attribute_words_with_arguments, crate::specs::Runs::function_words_with_arguments))]
pub fn dropped_words_with_arguments() -> &'static [&'static str]
    ensures { map (λ text. text.now) result.now ≡ runs.dropped_words_with_arguments }
{
    &[
        "captures",
        "dereferenceable",
        "dereferenceable_or_null",
        "range",
        "initializes",
        "nofpclass",
        "elementtype",
        "sret",
        "memory",
        "allockind",
        "allocsize",
    ]
}

#[tactic(auto, unfolding(crate::specs::Runs::words_with_perhaps_arguments))]
pub fn words_with_perhaps_arguments() -> &'static [&'static str]
    ensures { map (λ text. text.now) result.now ≡ runs.words_with_perhaps_arguments }
{
    &["dead_on_return", "uwtable"]
}
