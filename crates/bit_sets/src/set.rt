ghost use Rattle.std.specs.Prelude.{List, ◌≡◌, ◌↔◌, ℕ, ◌+◌, ◌-◌, ◌/◌, ◌^◌, ◌<◌, ◌≤◌, [], ◌∷◌, length, replicate, All, Contains, IsTrue, IfOk};
ghost use Rattle.bit_sets.specs.BitSet as spec;
ghost use Rattle.bit_sets.specs.Tests as test;

use ltt_base::{List, Memory};
use std::alloc::Global;

/// How a test of membership is written.
///
/// Source: LLVM's `TypeTestResolution`, whose words these are.
#[derive(Clone, Copy, PartialEq, Eq)]
pub enum Kind {
    /// No member: the test is false.
    Unsat,
    /// One offset: a comparison.
    Single,
    /// Every bit is set: the rotated comparison alone.
    AllOnes,
    /// At most 64 bits, in a word.
    Inline,
    /// More bits, in a byte array.
    ByteArray,
}

/// The members of one type identifier in its combined variable or jump table, as bits.
///
/// `min` is in bytes from the start of that object. Bit i stands for the offset `min + i * 2^align`, and
/// `size_m1` is the number of bits less one. `words` has bit i at place `i % 64`, from the low end, of
/// word `i / 64`. Where `kind` is `Unsat` every number is 0 and there is no word.
///
/// Source: Control Flow Integrity Design, "Stripping Leading/Trailing Zeros in Bit Vectors" and
/// "Alignment"; LLVM's `BitSetInfo`. Differs: bits in words, where LLVM keeps a set of indices.
#[derive(Drop)]
pub struct BitSet {
    pub kind: Kind,
    pub min: u64,
    pub align: u8,
    pub size_m1: u64,
    pub words: List<u64>,
}

/// The set of the offsets of members, which may stand in any order and more than once.
pub fn build(alloc: Global, offsets: &[u64]) -> Result<BitSet, Memory>
    requires { spec.AreOffsets offsets.now }
    ensures { IfOk result (λ set. set ≡ spec.set_of offsets.now) }
{
    if offsets.is_empty() {
        return Ok(no_set(alloc));
    }
    let min = least(offsets);
    let span = greatest(offsets) - min;
    let align = align_of_mask(mask_from(min, offsets));
    let size_m1 = span >> align;
    let words = words_of(alloc, offsets, min, align, size_m1)?;
    let kind = kind_of(words.items(), span, size_m1);
    Ok(BitSet {
        kind,
        min,
        align,
        size_m1,
        words,
    })
}

// The set of no offsets.
fn no_set(alloc: Global) -> BitSet
    ensures { result ≡ spec.no_set }
{
    BitSet {
        kind: Kind::Unsat,
        min: 0,
        align: 0,
        size_m1: 0,
        words: List::new(alloc),
    }
}

pub fn least(offsets: &[u64]) -> u64
    requires { 0 < length offsets.now }
    ensures { result ≡ spec.least offsets.now }
{
    let mut low = offsets[0];
    for offset in offsets {
        low = low.min(*offset);
    }
    low
}

pub fn greatest(offsets: &[u64]) -> u64
    ensures { result ≡ spec.greatest offsets.now }
{
    let mut high = 0;
    for offset in offsets {
        high = high.max(*offset);
    }
    high
}

// The bits that stand in some distance from the least offset.
fn mask_from(low: u64, offsets: &[u64]) -> u64
    requires { All (λ offset. low ≤ offset) offsets.now }
    ensures { result ≡ spec.mask_from low offsets.now }
{
    let mut mask = 0;
    for offset in offsets {
        mask |= *offset - low;
    }
    mask
}

// The low bits that no distance has.
fn align_of_mask(mask: u64) -> u8
    requires { mask < 2 ^ 27 }
    ensures { result ≡ spec.align_of_mask mask }
{
    if mask == 0 {
        0
    } else {
        mask.trailing_zeros() as u8
    }
}

// The words of the set.
fn words_of(
    alloc: Global,
    offsets: &[u64],
    low: u64,
    align: u8,
    size_m1: u64,
) -> Result<List<u64>, Memory>
    requires aligned { All (λ offset. spec.IsBit low align size_m1 offset) offsets.now }
    requires small { size_m1 < 2 ^ 27 }
    requires step { align < 64 }
    ensures { IfOk result (λ words. words ≡ spec.words_from (spec.bit_of offsets.now low align) 0 (spec.word_count size_m1)) }
{
    let mut words = no_bits(alloc, size_m1)?;
    for offset in offsets {
        let bit = (*offset - low) >> align;
        let word = (bit / 64) as usize;
        words[word] |= 1 << (bit % 64);
    }
    Ok(List::from_vec(words))
}

// Words without bits.
fn no_bits(alloc: Global, size_m1: u64) -> Result<Vec<u64>, Memory>
    requires { size_m1 < 2 ^ 27 }
    ensures { IfOk result (λ words. words.items ≡ replicate (spec.word_count size_m1) 0) }
{
    let mut words = Vec::new(alloc);
    for _word in 0..size_m1 / 64 + 1 {
        match words.push(0) {
            Ok(()) => {}
            Err(_) => return Err(Memory),
        }
    }
    Ok(words)
}

// Whether a bit is set; no bit past the words is.
pub fn is_set(words: &[u64], bit: u64) -> bool
    ensures { result ≡ spec.bit_in words.now bit }
{
    match words.get((bit / 64) as usize) {
        Some(word) => *word >> (bit % 64) & 1 == 1,
        None => false,
    }
}

// Whether bits 0 to size_m1 are set.
fn is_full(words: &[u64], size_m1: u64) -> bool
    requires { size_m1 < 2 ^ 27 }
    ensures { result ≡ spec.holds_below (spec.bit_in words.now) (size_m1 + 1) }
{
    for bit in 0..size_m1 + 1 {
        if !is_set(words, bit) {
            return false;
        }
    }
    true
}

fn kind_of(words: &[u64], span: u64, size_m1: u64) -> Kind
    requires { size_m1 < 2 ^ 27 }
    ensures { result ≡ spec.kind_of (spec.bit_in words.now) span size_m1 }
{
    if span == 0 {
        Kind::Single
    } else if is_full(words, size_m1) {
        Kind::AllOnes
    } else if size_m1 < 64 {
        Kind::Inline
    } else {
        Kind::ByteArray
    }
}

impl BitSet {
    /// Whether an offset is that of a member. Takes no memory.
    pub fn has(&self, offset: u64) -> bool
        requires { spec.IsSet self.now }
        ensures { (members : List ℕ) → spec.AreOffsets members → self.now ≡ spec.set_of members → IsTrue result ↔ Contains members offset }
    {
        let distance = offset.wrapping_sub(self.min);
        let bit = distance.rotate_right(u32::from(self.align));
        self.is_held(bit)
    }

    // Whether the set has a bit of this number.
    fn is_held(&self, bit: u64) -> bool
        ensures { result ≡ test.is_held self.now bit }
    {
        bit <= self.size_m1 && is_set(self.words.items(), bit)
    }
}
