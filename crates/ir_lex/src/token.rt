use ltt_base::Place;

/// The kinds of tokens. Where two kinds of the same length begin at a byte, the one that stands first here is taken.
///
/// A quoted text runs from a `"` to the next `"`. As a label, a global or a local it is no number: its bytes after
/// the escapes are neither `0` nor digits that don't begin with `0`. Bytes past ASCII stand in quoted texts alone.
///
/// Source: LLVM Language Reference, "Identifiers" and "String constants"; LLVM's `LLLexer`. Differs: the exact
/// languages are those of docs/language.md, "Tokens"; what that leaves out begins no token.
#[derive(Clone, Copy)]
pub enum Kind {
    /// `define`, `i32`, `x`
    Word,
    /// `entry:`, `7:`, `"a b":`
    Label,
    /// `@f`, `@7`, `@"a b"`
    Global,
    /// `%f`, `%7`, `%"a b"`
    Local,
    /// `$f`, `$"a b"`
    Comdat,
    /// `!type`, `!7`
    Meta,
    /// `!"a b"`
    MetaText,
    /// `#7`
    Group,
    /// `^7`
    SummaryNumber,
    /// `#dbg_value`
    HashWord,
    /// `-7`
    Number,
    /// `-7.5e+3`, `0xK00FF`
    Float,
    /// `"a b"`
    Quoted,
    /// `c"a b"`
    Bytes,
    /// One of `=`, `,`, `(`, `)`, `{`, `}`, `[`, `]`, `<`, `>`, `*`, `!` and `:`.
    Mark,
    /// `...`
    Dots,
}

/// A token: its kind, the bytes from `start` up to `end` of the text, each counted from 0, and its first byte's place.
#[derive(Clone, Copy)]
pub struct Token {
    pub kind: Kind,
    pub start: usize,
    pub end: usize,
    pub place: Place,
}
