//! Calls of `ltt` over files and sinks in memory: runs the cases of the tables that its words name, and prints each that differs.
//!
//! docs/cases.md tells the form of a table.
#![tactic(auto)]

use ltt_base::{DiskFiles, MemFiles, MemSink, Memory, Text, read_file};
use ltt_driver::ltt;
use std::alloc::{AllocError, Global};
use std::{env, io, str};

/// The longest table, in bytes.
const TABLE_LIMIT: usize = 16_777_216;

/// The bytes that a sink takes where a case says nothing else.
const ROOM: usize = 4_194_304;

/// The words that a part of a case begins with.
const WORDS: [&str; 15] = [
    "ltt",
    "word",
    "file",
    "each",
    "out",
    "err",
    "status",
    "pieces",
    "fail-select",
    "fail-read",
    "room",
    "each-write",
    "fail-write",
    "err-room",
    "fail-err",
];

/// What a call came to.
#[derive(Drop)]
struct Told {
    status: u8,
    out: MemSink,
    err: MemSink,
}

/// The first line of a text, and what is behind it.
fn lined(text: &str) -> (&str, &str) {
    match text.split_once("\n") {
        Some((line, behind)) => (line, behind),
        None => (text, ""),
    }
}

/// What stands before the first part of a text, and the parts.
fn parted(text: &str) -> (&str, &str) {
    match text.split_once("\n--- ") {
        Some((before, parts)) => (before, parts),
        None => (text, ""),
    }
}

/// The first word of a part, the rest of its line, and the text behind the line.
fn cut(part: &str) -> (&str, &str, &str) {
    let (line, text) = lined(part);
    match line.split_once(" ") {
        Some((word, rest)) => (word, rest, text),
        None => (line, "", text),
    }
}

/// A number of a table: 0 where a word is none.
fn number(word: &str) -> u64 {
    match word.parse::<u64>() {
        Ok(number) => number,
        Err(_) => 0,
    }
}

/// The number behind a word of a case.
fn number_of(case: &str, wanted: &str) -> Option<u64> {
    for part in case.split("\n--- ") {
        let (word, rest, _) = cut(part);
        if word == wanted {
            return Some(number(rest));
        }
    }
    None
}

/// The number of bytes behind a word of a case.
fn bytes_of(case: &str, wanted: &str) -> usize {
    match number_of(case, wanted) {
        Some(number) => number as usize,
        None => ROOM,
    }
}

/// The text behind a word of a case.
fn text_of<'a>(case: &'a str, wanted: &str) -> &'a str {
    for part in case.split("\n--- ") {
        let (word, _, text) = cut(part);
        if word == wanted {
            return text;
        }
    }
    ""
}

/// Whether a case has no other words.
fn is_known(case: &str) -> bool {
    for part in case.split("\n--- ") {
        let (word, _, _) = cut(part);
        if !WORDS.contains(&word) {
            return false;
        }
    }
    true
}

/// A text so many times, each time with its number in the place of each `#`.
fn repeated(alloc: Global, text: &str, count: u64) -> Result<String, AllocError> {
    let mut whole = String::new(alloc);
    for number in 0..count {
        let mut parts = text.split("#");
        if let Some(first) = parts.next() {
            whole.push_str(first)?;
        }
        for part in parts {
            write!(whole, "{number}{part}")?;
        }
    }
    Ok(whole)
}

/// Adds the words of a line.
fn add_words(alloc: Global, words: &mut Vec<String>, line: &str) -> Result<(), AllocError> {
    for word in line.split(" ") {
        if !word.is_empty() {
            words.push(String::from_str(alloc, word)?)?;
        }
    }
    Ok(())
}

/// Adds what a part tells of the words of a call.
fn add_word(alloc: Global, words: &mut Vec<String>, part: &str) -> Result<(), AllocError> {
    let (word, rest, text) = cut(part);
    if word == "ltt" {
        return add_words(alloc, words, rest);
    }
    if word == "word" {
        words.push(String::from_str(alloc, rest)?)?;
    }
    if word == "each" {
        let more = repeated(alloc, text, number(rest))?;
        if let Some(last) = words.last_mut() {
            last.push_str(more.as_str())?;
        }
    }
    Ok(())
}

/// The words of a case's call, which its parts before the first file tell.
fn words_of(alloc: Global, case: &str) -> Result<Vec<String>, AllocError> {
    let mut words = Vec::new(alloc);
    for part in case.split("\n--- ") {
        if part.starts_with("file ") {
            break;
        }
        add_word(alloc, &mut words, part)?;
    }
    Ok(words)
}

/// Adds a file: its name, its text, and the parts behind it, of which `each` adds to the text.
fn add_file(alloc: Global, files: &mut MemFiles, file: &str) -> Result<(), Memory> {
    let (file, parts) = parted(file);
    let (name, own) = lined(file);
    let mut text = Text::copy(alloc, own.as_bytes())?;
    for part in parts.split("\n--- ") {
        let (word, rest, behind) = cut(part);
        if word == "each" {
            let more = repeated(alloc, behind, number(rest)).map_err(|_| Memory)?;
            text.extend(more.as_bytes())?;
        }
    }
    files.add(name, text.bytes())
}

/// Adds the files of a text.
fn add_files(alloc: Global, files: &mut MemFiles, text: &str) -> Result<(), Memory> {
    for file in text.split("\n--- file ").skip(1) {
        add_file(alloc, files, file)?;
    }
    Ok(())
}

/// Makes those calls of the files fail that a case tells.
fn fail_files(files: &mut MemFiles, case: &str) -> Result<(), Memory> {
    for part in case.split("\n--- ") {
        let (word, rest, _) = cut(part);
        if word == "fail-select" {
            files.fail_select(number(rest))?;
        }
        if word == "fail-read" {
            files.fail_read(number(rest))?;
        }
    }
    Ok(())
}

/// A sink with so much room, whose writes take so much, and of which one may fail.
fn sink(alloc: Global, room: usize, most: usize, failing: Option<u64>) -> Result<MemSink, Memory> {
    let mut sink = MemSink::new(alloc, room, most.max(1))?;
    if let Some(failing) = failing {
        sink.fail_write(failing)?;
    }
    Ok(sink)
}

/// The files of a case: those of its table's head, and its own.
fn files_of(alloc: Global, head: &str, case: &str) -> Result<MemFiles, Memory> {
    let mut files = MemFiles::new(alloc);
    add_files(alloc, &mut files, head)?;
    add_files(alloc, &mut files, case)?;
    fail_files(&mut files, case)?;
    files.pieces(bytes_of(case, "pieces").max(1));
    Ok(files)
}

/// Runs a case.
fn run(alloc: Global, head: &str, case: &str) -> Result<Told, Memory> {
    let words = words_of(alloc, case).map_err(|_| Memory)?;
    let mut files = files_of(alloc, head, case)?;
    let mut out = sink(
        alloc,
        bytes_of(case, "room"),
        bytes_of(case, "each-write"),
        number_of(case, "fail-write"),
    )?;
    let mut err = sink(
        alloc,
        bytes_of(case, "err-room"),
        ROOM,
        number_of(case, "fail-err"),
    )?;
    let status = ltt(alloc, words.as_slice(), &mut files, &mut out, &mut err);
    Ok(Told { status, out, err })
}

/// Whether a call came to what the case tells.
fn is_told(case: &str, told: &Told) -> bool {
    is_known(case)
        && number_of(case, "status") == Some(u64::from(told.status))
        && told.out.taken() == text_of(case, "out").as_bytes()
        && told.err.taken() == text_of(case, "err").as_bytes()
}

/// A text that was taken, as it is printed.
fn shown(taken: &[u8]) -> &str {
    match str::from_utf8(taken) {
        Ok(text) => text,
        Err(_) => "?",
    }
}

/// Prints what a case came to.
fn show(rt: &HostRuntime, title: &str, told: &Told) -> io::Result<()> {
    let out = shown(told.out.taken());
    let err = shown(told.err.taken());
    let status = told.status;
    println!(rt; "=== {title}\n--- out\n{out}\n--- err\n{err}\n--- status {status}\n")
}

/// Tries a case. Answers 1 where it differs.
fn try_case(rt: &HostRuntime, head: &str, case: &str) -> io::Result<u64> {
    let (title, case) = parted(case);
    match run(rt.alloc(), head, case) {
        Ok(told) if is_told(case, &told) => return Ok(0),
        Ok(told) => show(rt, title, &told)?,
        Err(Memory) => println!(rt; "=== {title}\nout of memory\n")?,
    }
    Ok(1)
}

/// Tries the cases of a table. Answers how many there are, and how many differ.
fn try_table(rt: &HostRuntime, table: &str) -> io::Result<(u64, u64)> {
    let mut texts = table.split("\n=== ");
    let head = texts.next().unwrap_or("");
    let mut cases: u64 = 0;
    let mut differing: u64 = 0;
    for case in texts {
        cases = cases.saturating_add(1);
        differing = differing.saturating_add(try_case(rt, head, case)?);
    }
    Ok((cases, differing))
}

/// Tries the table in a file. One that isn't read counts as a case that differs.
fn try_file(rt: &HostRuntime, name: &str) -> io::Result<(u64, u64)> {
    let mut files = DiskFiles::new(rt);
    let Ok(table) = read_file(rt.alloc(), &mut files, name, TABLE_LIMIT) else {
        println!(rt; "{name} isn't read\n")?;
        return Ok((1, 1));
    };
    match str::from_utf8(table.bytes()) {
        Ok(table) => try_table(rt, table),
        Err(_) => Ok((1, 1)),
    }
}

fn main(rt: HostRuntime) -> io::Result<()> {
    let mut cases: u64 = 0;
    let mut differing: u64 = 0;
    for name in env::args(&rt)?.skip(1) {
        let (more, others) = try_file(&rt, name.as_str())?;
        cases = cases.saturating_add(more);
        differing = differing.saturating_add(others);
    }
    println!(&rt; "{cases} cases, {differing} differ")
}
