ghost use Rattle.std.specs.Prelude.{◌≡◌, map, drop};
ghost use Rattle.std.specs.List.{list_any};
ghost use Rattle.type_grammar.specs.Constants as constants;
ghost use Rattle.type_grammar.specs.Items as items;
ghost use Rattle.type_grammar.specs.Types as types;
ghost use Rattle.unit_grammar.specs.Seeing.{seen_piece, tokens};
ghost use Rattle.unit_grammar.specs.Signs.{begins_any, passes};

use ir_lex::Kind;
use unit_grammar::{Input, Seen, is_kind, is_number, is_text, is_word_of};

/// The words that are types and are left out.
#[tactic(auto, unfolding(crate::specs::Types::left_type_words))]
pub fn left_type_words() -> &'static [&'static str]
    ensures { map (λ text. text.now) result.now ≡ types.left_type_words }
{
    &[
        "half",
        "bfloat",
        "float",
        "double",
        "fp128",
        "x86_fp80",
        "ppc_fp128",
        "x86_amx",
        "token",
        "label",
    ]
}

#[tactic(auto, unfolding(crate::specs::Types::value_type_signs))]
fn is_value_type_start(seen: &Seen<'_>) -> bool
    ensures { result ≡ list_any (λ s. passes s (seen_piece seen.now)) types.value_type_signs }
{
    if is_number(seen, Kind::Word, b'i') {
        return true;
    }
    if is_text(seen, Kind::Word, b"ptr") {
        return true;
    }
    if is_kind(seen, Kind::Local) {
        return true;
    }
    if is_text(seen, Kind::Mark, b"[") {
        return true;
    }
    if is_text(seen, Kind::Mark, b"{") {
        return true;
    }
    if is_word_of(seen, left_type_words()) {
        return true;
    }
    is_text(seen, Kind::Mark, b"<")
}

#[tactic(auto, unfolding(crate::specs::Types::type_signs))]
fn is_type_start(seen: &Seen<'_>) -> bool
    ensures { result ≡ list_any (λ s. passes s (seen_piece seen.now)) types.type_signs }
{
    if is_text(seen, Kind::Word, b"void") {
        return true;
    }
    is_value_type_start(seen)
}

/// Whether a type that isn't `void` begins at a place, as its first token tells.
pub fn begins_value_type(input: &Input<'_>, at: usize) -> bool
    ensures { result ≡ begins_any types.value_type_starts (drop at (tokens input.now)) }
{
    match input.at(at) {
        Some(seen) => is_value_type_start(&seen),
        None => false,
    }
}

/// Whether a type begins at a place, as its first token tells.
pub fn begins_type(input: &Input<'_>, at: usize) -> bool
    ensures { result ≡ begins_any types.type_starts (drop at (tokens input.now)) }
{
    match input.at(at) {
        Some(seen) => is_type_start(&seen),
        None => false,
    }
}

#[tactic(auto, unfolding(crate::specs::Constants::constant_words))]
pub fn constant_words() -> &'static [&'static str]
    ensures { map (λ text. text.now) result.now ≡ constants.constant_words }
{
    &["true", "false", "null", "zeroinitializer"]
}

#[tactic(auto, unfolding(crate::specs::Constants::undefined_words))]
pub fn undefined_words() -> &'static [&'static str]
    ensures { map (λ text. text.now) result.now ≡ constants.undefined_words }
{
    &["undef", "poison", "none"]
}

#[tactic(auto, unfolding(crate::specs::Constants::address_words))]
pub fn address_words() -> &'static [&'static str]
    ensures { map (λ text. text.now) result.now ≡ constants.address_words }
{
    &["inbounds", "nuw", "nusw"]
}

#[tactic(auto, unfolding(crate::specs::Constants::left_constant_words))]
pub fn left_constant_words() -> &'static [&'static str]
    ensures { map (λ text. text.now) result.now ≡ constants.left_constant_words }
{
    &[
        "alloca",
        "ptrtoint",
        "inttoptr",
        "bitcast",
        "addrspacecast",
        "freeze",
        "fence",
        "cmpxchg",
        "atomicrmw",
        "volatile",
        "atomic",
        "invoke",
        "landingpad",
        "resume",
        "catchswitch",
        "catchpad",
        "cleanuppad",
        "catchret",
        "cleanupret",
        "callbr",
        "indirectbr",
        "va_arg",
        "insertvalue",
        "extractelement",
        "insertelement",
        "shufflevector",
        "fadd",
        "fsub",
        "fmul",
        "fdiv",
        "frem",
        "fneg",
        "fcmp",
        "fptrunc",
        "fpext",
        "fptoui",
        "fptosi",
        "uitofp",
        "sitofp",
        "musttail",
        "alias",
        "ifunc",
        "module",
        "thread_local",
        "externally_initialized",
        "uselistorder",
        "jumptable",
    ]
}

#[tactic(auto, unfolding(crate::specs::Constants::constant_signs))]
fn is_constant_start(seen: &Seen<'_>) -> bool
    ensures { result ≡ list_any (λ s. passes s (seen_piece seen.now)) constants.constant_signs }
{
    if is_kind(seen, Kind::Number) {
        return true;
    }
    if is_word_of(seen, constant_words()) {
        return true;
    }
    if is_word_of(seen, undefined_words()) {
        return true;
    }
    if is_kind(seen, Kind::Float) {
        return true;
    }
    if is_kind(seen, Kind::Global) {
        return true;
    }
    if is_kind(seen, Kind::Bytes) {
        return true;
    }
    if is_text(seen, Kind::Mark, b"{") {
        return true;
    }
    if is_text(seen, Kind::Mark, b"[") {
        return true;
    }
    if is_text(seen, Kind::Word, b"getelementptr") {
        return true;
    }
    is_word_of(seen, left_constant_words())
}

/// Whether a constant begins at a place, as its first token tells.
pub fn begins_constant(input: &Input<'_>, at: usize) -> bool
    ensures { result ≡ begins_any constants.constant_starts (drop at (tokens input.now)) }
{
    match input.at(at) {
        Some(seen) => is_constant_start(&seen),
        None => false,
    }
}

#[tactic(auto, unfolding(crate::specs::Items::item_signs))]
fn is_item_start(seen: &Seen<'_>) -> bool
    ensures { result ≡ list_any (λ s. passes s (seen_piece seen.now)) items.item_signs }
{
    if is_number(seen, Kind::Meta, b'!') {
        return true;
    }
    if is_kind(seen, Kind::MetaText) {
        return true;
    }
    if is_text(seen, Kind::Word, b"null") {
        return true;
    }
    if is_text(seen, Kind::Mark, b"!") {
        return true;
    }
    is_type_start(seen)
}

/// Whether a part of a metadata node begins at a place, as its first token tells.
pub fn begins_item(input: &Input<'_>, at: usize) -> bool
    ensures { result ≡ begins_any items.item_starts (drop at (tokens input.now)) }
{
    match input.at(at) {
        Some(seen) => is_item_start(&seen),
        None => false,
    }
}
