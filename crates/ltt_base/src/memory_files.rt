// Files in memory, for tests.
ghost use Rattle.std.specs.Prelude.{◌≡◌, ◌≢◌, ◌↔◌, ◌+◌, ◌^◌, ◌<◌, ◌≤◌, ℕ, List, [], ◌∷◌, ◌++◌, length, take, drop, is_err, Some, None, IfOk, OnOk, OnErr, slice_get, slice_set, slice_index_or};
ghost use Rattle.std.specs.List.{position};
ghost use Rattle.ltt_base.specs.Outside.{Rose, Reads};
ghost use Rattle.ltt_base.specs.Calls.{up, fails};

use crate::list::List;
use crate::outside::{Failed, Files};
use crate::refusal::Memory;
use crate::text::Text;
use std::alloc::Global;
use std::marker::Model;

#[derive(Drop)]
struct MemFile {
    name: Text,
    bytes: Text,
}

/// Files in memory, which tell what they hold. Each has its own count of faults, and all names that aren't held have one.
#[derive(Drop)]
pub struct MemFiles {
    alloc: Global,
    files: List<MemFile>,
    counts: List<u64>,
    others: u64,
    selected: Option<usize>,
    at: usize,
    failing_selects: List<u64>,
    failing_reads: List<u64>,
    selects: u64,
    reads: u64,
    most: usize,
}

impl Model for MemFiles {
    ghost use Rattle.std.specs.Prelude.{◌≡◌, ◌<◌, ◌≤◌, length};
    ghost use Rattle.std.specs.Option.{ForSome};
    ghost use Rattle.ltt_base.specs.MemoryFiles.{FilesState};

    ghost Value = { FilesState };

    ghost view = { λ m. record {
      files = m.files;
      counts = m.counts;
      others = m.others;
      selected = m.selected;
      at = m.at;
      failing_selects = m.failing_selects;
      failing_reads = m.failing_reads;
      selects = m.selects;
      reads = m.reads;
      most = m.most;
    } };

    ghost invariant = { λ m. (length m.counts ≡ length m.files) × ForSome m.selected (λ place. place < length m.files) × (1 ≤ m.most) };
}

ghost use Rattle.ltt_base.specs.MemoryFiles as mem;

// The place of the file of this name, the number of files if there is none.
#[tactic(auto, using(crate::proofs::MemoryLemmas::placed))]
fn place_of(files: &[MemFile], name: &[u8]) -> usize
    ensures { result ≡ mem.place_of name.now files.now }
{
    match find(files, name) {
        Some(place) => place,
        None => files.len(),
    }
}

// The place of the file of this name.
fn find(files: &[MemFile], name: &[u8]) -> Option<usize>
    ensures { result ≡ position (mem.is_named name.now) files.now }
{
    files.iter().position(|file| file.name.bytes() == name)
}

// The file at a place.
fn file_at(files: &[MemFile], place: usize) -> &MemFile
    requires { place < length files.now }
    ensures { slice_get files.now place ≡ Some result.now }
{
    &files[place]
}

// Counts a fault at a place.
fn count_fault(counts: &mut List<u64>, place: usize)
    requires { place < length counts.old }
    ensures counted { counts.new ≡ slice_set counts.old place (up (slice_index_or counts.old place 0)) }
    ensures fits { slice_index_or counts.old place 0 < 2 ^ 64 }
{
    let count = counts.at_mut(place);
    *count = count.saturating_add(1);
}

// Moves as many of the bytes from a place on as there are, as there is room for, and at most `most`. Answers their number.
fn fill(into: &mut [u8], bytes: &[u8], at: usize, most: usize) -> usize
    requires { 1 ≤ most }
    ensures room { result ≤ length into.new }
    ensures moved { drop at bytes.now ≡ take result into.new ++ drop (at + result) bytes.now }
    ensures end { result ≡ 0 → 0 < length into.new → drop (at + result) bytes.now ≡ [] }
    ensures few { result ≤ most }
    ensures fits { at + result < 2 ^ 64 }
{
    if at >= bytes.len() {
        return 0;
    }
    let count = (bytes.len() - at).min(into.len()).min(most);
    into[..count].copy_from_slice(&bytes[at..at + count]);
    count
}

impl MemFiles {
    ghost use Rattle.ltt_base.specs.MemoryFiles as mem;

    /// Holds no file.
    pub fn new(alloc: Global) -> MemFiles
        ensures { result ≡ mem.none_held }
    {
        MemFiles {
            alloc,
            files: List::new(alloc),
            counts: List::new(alloc),
            others: 0,
            selected: None,
            at: 0,
            failing_selects: List::new(alloc),
            failing_reads: List::new(alloc),
            selects: 0,
            reads: 0,
            most: usize::MAX,
        }
    }

    /// Adds a file, or replaces the one of this name, and selects nothing. The name keeps its count.
    pub fn add(&mut self, name: &str, bytes: &[u8]) -> Result<(), Memory>
        ensures added { OnOk result (mem.held self.new name.now ≡ Some bytes.now) }
        ensures others { OnOk result ((other : List ℕ) → other ≢ name.now → mem.held self.new other ≡ mem.held self.old other) }
        ensures counts { OnOk result ((other : List ℕ) → mem.faults self.new other ≡ mem.faults self.old other) }
        ensures calls { OnOk result (mem.SameCalls self.old self.new) }
        ensures selected { OnOk result (self.new.selected ≡ None) }
        ensures same { OnErr result (self.new ≡ self.old) }
    {
        let copy = Text::copy(self.alloc, bytes)?;
        let place = place_of(self.files.items(), name.as_bytes());
        if place < self.files.len() {
            self.replace(place, copy);
            return Ok(());
        }
        let name = Text::copy(self.alloc, name.as_bytes())?;
        self.push(MemFile { name, bytes: copy })
    }

    // Puts other bytes into the file at a place, and selects nothing.
    fn replace(&mut self, place: usize, bytes: Text)
        requires { place < length self.old.files }
        ensures added { (name : List ℕ) → mem.place_of name self.old.files ≡ place → mem.held self.new name ≡ Some bytes }
        ensures others { (name : List ℕ) → mem.place_of name self.old.files ≢ place → mem.held self.new name ≡ mem.held self.old name }
        ensures counts { (name : List ℕ) → mem.faults self.new name ≡ mem.faults self.old name }
        ensures calls { mem.SameCalls self.old self.new }
        ensures selected { self.new.selected ≡ None }
    {
        self.files.at_mut(place).bytes = bytes;
        self.selected = None;
    }

    // Adds a file of a name that isn't held, and selects nothing.
    fn push(&mut self, file: MemFile) -> Result<(), Memory>
        requires { mem.place_of file.name self.old.files ≡ length self.old.files }
        ensures added { OnOk result (mem.held self.new file.name ≡ Some file.bytes) }
        ensures others { OnOk result ((name : List ℕ) → name ≢ file.name → mem.held self.new name ≡ mem.held self.old name) }
        ensures counts { OnOk result ((name : List ℕ) → mem.faults self.new name ≡ mem.faults self.old name) }
        ensures calls { OnOk result (mem.SameCalls self.old self.new) }
        ensures selected { OnOk result (self.new.selected ≡ None) }
        ensures same { OnErr result (self.new ≡ self.old) }
    {
        if self.counts.push(self.others).is_err() {
            return Err(Memory);
        }
        if self.files.push(file).is_err() {
            let _ = self.counts.pop();
            return Err(Memory);
        }
        self.selected = None;
        Ok(())
    }

    /// Makes the read of this number fail. The first read is 1.
    pub fn fail_read(&mut self, call: u64) -> Result<(), Memory>
        ensures listed { OnOk result (self.new ≡ record self.old { failing_reads = self.old.failing_reads ++ call ∷ [] }) }
        ensures same { OnErr result (self.new ≡ self.old) }
    {
        self.failing_reads.add(call)
    }

    /// Makes the select of this number fail. The first select is 1.
    pub fn fail_select(&mut self, call: u64) -> Result<(), Memory>
        ensures listed { OnOk result (self.new ≡ record self.old { failing_selects = self.old.failing_selects ++ call ∷ [] }) }
        ensures same { OnErr result (self.new ≡ self.old) }
    {
        self.failing_selects.add(call)
    }

    /// Makes each read give at most `most` bytes.
    pub fn pieces(&mut self, most: usize)
        requires { 1 ≤ most }
        ensures { self.new ≡ record self.old { most = most } }
    {
        self.most = most;
    }

    // Counts a fault at a place, and selects nothing.
    fn fail(&mut self, place: usize)
        ensures files { self.new.files ≡ self.old.files }
        ensures selected { self.new.selected ≡ None }
        ensures calls { mem.SameCalls self.old self.new }
        ensures counts { (other : List ℕ) → mem.faults self.old other ≤ mem.faults self.new other }
        ensures counted { (name : List ℕ) → place ≡ mem.place_of name self.old.files → mem.faults self.new name ≡ up (mem.faults self.old name) }
    {
        if place < self.counts.len() {
            count_fault(&mut self.counts, place);
        } else {
            self.others = self.others.saturating_add(1);
        }
        self.selected = None;
    }
}

impl Files for MemFiles {
    ghost use Rattle.ltt_base.specs.MemoryFiles as mem;

    ghost held = { mem.held };

    ghost left = { mem.left };

    ghost is_selected = { mem.IsSelected };

    ghost faults = { mem.faults };

    fn select(&mut self, name: &str) -> Result<(), Failed>
        ensures held { (other : List ℕ) → mem.held self.new other ≡ mem.held self.old other }
        ensures counts { (other : List ℕ) → mem.faults self.old other ≤ mem.faults self.new other }
        ensures selected { OnOk result (mem.IsSelected self.new name.now) }
        ensures whole { OnOk result (mem.left self.new ≡ mem.held self.old name.now) }
        ensures failed { OnErr result (Rose (mem.faults self.old name.now) (mem.faults self.new name.now)) }
        ensures none { OnErr result ((other : List ℕ) → ¬ mem.IsSelected self.new other) }

        ensures fails { is_err result ≡ mem.select_fails self.old name.now }
        ensures call { self.new.selects ≡ up self.old.selects }
        ensures reads { self.new.reads ≡ self.old.reads }
        ensures plan { mem.SamePlan self.old self.new }
    {
        self.selects = self.selects.saturating_add(1);
        let place = place_of(self.files.items(), name.as_bytes());
        if place >= self.files.len() || self.failing_selects.items().contains(&self.selects) {
            self.fail(place);
            return Err(Failed);
        }
        self.selected = Some(place);
        self.at = 0;
        Ok(())
    }

    fn read(&mut self, into: &mut [u8]) -> Result<usize, Failed>
        requires { (name : List ℕ) × mem.IsSelected self.old name }
        ensures held { (other : List ℕ) → mem.held self.new other ≡ mem.held self.old other }
        ensures counts { (other : List ℕ) → mem.faults self.old other ≤ mem.faults self.new other }
        ensures bytes { Reads (mem.left self.old) (mem.left self.new) result into.new }
        ensures kept { OnOk result ((other : List ℕ) → mem.IsSelected self.new other ↔ mem.IsSelected self.old other) }
        ensures failed { OnErr result ((name : List ℕ) → mem.IsSelected self.old name
            → Rose (mem.faults self.old name) (mem.faults self.new name)) }
        ensures none { OnErr result ((other : List ℕ) → ¬ mem.IsSelected self.new other) }

        ensures fails { is_err result ≡ fails self.old.failing_reads (up self.old.reads) }
        ensures call { self.new.reads ≡ up self.old.reads }
        ensures selects { self.new.selects ≡ self.old.selects }
        ensures plan { mem.SamePlan self.old self.new }
        ensures most { IfOk result (λ count. count ≤ self.old.most) }
    {
        self.reads = self.reads.saturating_add(1);
        let Some(place) = self.selected else {
            unreachable!()
        };
        if self.failing_reads.items().contains(&self.reads) {
            self.fail(place);
            return Err(Failed);
        }
        let file = file_at(self.files.items(), place);
        let count = fill(into, file.bytes.bytes(), self.at, self.most);
        self.at += count;
        Ok(count)
    }
}
