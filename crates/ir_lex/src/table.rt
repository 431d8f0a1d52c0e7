//! Tables of words and their codes.
ghost use Rattle.std.specs.Prelude.{◌≡◌, ◌≤◌, Contains, IfSome, IfNone, Some, map, length, slice_get, option_copied};
ghost use Rattle.ir_lex.specs.Tables.{IsAscending, HaveSameWords};
ghost use Rattle.ir_lex.specs.Words as spec;

use std::cmp::Ordering;
use std::marker::Model;

/// How many words `keywords` has.
pub const KEYWORDS: usize = 134;

/// Words in the order of their bytes. A word's code is its number, from 0.
///
/// Contracts see the list of the words, as bytes.
#[derive(Drop)]
pub struct Table<const N: usize> {
    words: &'static [&'static str],
}

impl<const N: usize> Model for Table<N> {
    ghost use Rattle.std.specs.Prelude.{◌≡◌, List, ℕ, map, length};
    ghost use Rattle.ir_lex.specs.Tables.{IsAscending};

    ghost Value = { List (List ℕ) };

    ghost view = { λ table. map (λ word. word.now) table.words.now };

    ghost invariant = { λ table. (length table.words.now ≡ N) × IsAscending (map (λ word. word.now) table.words.now) };
}

/// Where a word stands among words in the order of their bytes.
fn place_of(words: &[&str], word: &str) -> Option<usize>
    requires ascending { IsAscending (map (λ word. word.now) words.now) }
    ensures found { IfSome result (λ place. slice_get (map (λ word. word.now) words.now) place ≡ Some word.now) }
    ensures absent { IfNone result (¬ Contains (map (λ word. word.now) words.now) word.now) }
{
    let mut low = 0;
    let mut high = words.len();
    'search: while low < high {
        let middle = low + (high - low) / 2;
        match word.cmp(words[middle]) {
            Ordering::Less => high = middle,
            Ordering::Greater => low = middle + 1,
            Ordering::Equal => return Some(middle),
        }
    }
    None
}

impl<const N: usize> Table<N> {
    /// The code of a word, if the table has it.
    pub fn code_of(&self, word: &str) -> Option<u16>
        requires { N ≤ 1000 }
        ensures found { IfSome result (λ code. slice_get self.now code ≡ Some word.now) }
        ensures absent { IfNone result (¬ Contains self.now word.now) }
    {
        let place = place_of(self.words, word)?;
        Some(place as u16)
    }

    /// The word of a code, if the table has it.
    pub fn word_of(&self, code: u16) -> Option<&str>
        requires { N ≤ 1000 }
        ensures { option_copied result ≡ slice_get self.now code }
    {
        let at = code as usize;
        if at < N {
            return Some(self.words[at]);
        }
        None
    }
}

macro_rules! table {
    ($($word:literal),*) => {
        Table {
            words: &[$($word),*],
        }
    };
}

/// The operations on two integers.
pub fn operations() -> Table<13>
    ensures ascending { IsAscending result }
    ensures count { length result ≡ 13 }
    ensures words { HaveSameWords result spec.operation_words }
{
    table![
        "add", "and", "ashr", "lshr", "mul", "or", "sdiv", "shl", "srem", "sub", "udiv", "urem",
        "xor"
    ]
}

/// The predicates of comparisons.
pub fn predicates() -> Table<10>
    ensures ascending { IsAscending result }
    ensures count { length result ≡ 10 }
    ensures words { HaveSameWords result spec.predicate_words }
{
    table![
        "eq", "ne", "sge", "sgt", "sle", "slt", "uge", "ugt", "ule", "ult"
    ]
}

/// The words of linkage, those that are dropped and those that are left out.
pub fn keywords() -> Table<KEYWORDS>
    ensures ascending { IsAscending result }
    ensures count { length result ≡ KEYWORDS }
    ensures words { HaveSameWords result spec.keyword_words }
{
    table![
        "addrspace",
        "addrspacecast",
        "alias",
        "align",
        "alloca",
        "allocalign",
        "allockind",
        "allocptr",
        "allocsize",
        "alwaysinline",
        "appending",
        "argmemonly",
        "atomic",
        "atomicrmw",
        "available_externally",
        "bitcast",
        "builtin",
        "byval",
        "callbr",
        "captures",
        "catchpad",
        "catchret",
        "catchswitch",
        "ccc",
        "cleanuppad",
        "cleanupret",
        "cmpxchg",
        "cold",
        "coldcc",
        "common",
        "convergent",
        "dead_on_return",
        "dead_on_unwind",
        "default",
        "dereferenceable",
        "dereferenceable_or_null",
        "disjoint",
        "dso_local",
        "dso_preemptable",
        "elementtype",
        "exact",
        "extern_weak",
        "external",
        "externally_initialized",
        "extractelement",
        "fadd",
        "fastcc",
        "fcmp",
        "fdiv",
        "fence",
        "fmul",
        "fneg",
        "fpext",
        "fptosi",
        "fptoui",
        "fptrunc",
        "freeze",
        "frem",
        "fsub",
        "hidden",
        "hot",
        "ifunc",
        "immarg",
        "inbounds",
        "indirectbr",
        "initializes",
        "inlinehint",
        "inrange",
        "inreg",
        "insertelement",
        "insertvalue",
        "internal",
        "inttoptr",
        "invoke",
        "jumptable",
        "landingpad",
        "linkonce",
        "linkonce_odr",
        "local_unnamed_addr",
        "memory",
        "minsize",
        "module",
        "mustprogress",
        "musttail",
        "nneg",
        "noalias",
        "nobuiltin",
        "nocallback",
        "nocapture",
        "noext",
        "nofpclass",
        "nofree",
        "noinline",
        "nonnull",
        "norecurse",
        "noreturn",
        "nosync",
        "noundef",
        "nounwind",
        "nsw",
        "nusw",
        "nuw",
        "optnone",
        "optsize",
        "private",
        "protected",
        "ptrtoint",
        "range",
        "readnone",
        "readonly",
        "resume",
        "returned",
        "samesign",
        "shufflevector",
        "signext",
        "sitofp",
        "speculatable",
        "sret",
        "ssp",
        "sspreq",
        "sspstrong",
        "thread_local",
        "uitofp",
        "unnamed_addr",
        "uselistorder",
        "uwtable",
        "va_arg",
        "volatile",
        "weak",
        "weak_odr",
        "willreturn",
        "writable",
        "writeonly",
        "zeroext"
    ]
}
