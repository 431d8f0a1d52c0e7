// The lexer after its last answer, the tables of words, short lists, and a table of functions over the memory of numbers.
use ir_lex::{
    KEYWORDS, Lexer, breaks_line, keywords, lines_tell_first, operations, predicates,
    readings_agree, readings_end, words_stand_once,
};
use ir_memories::{Goal, Memory, Numeric, Row};
use ir_numbers::is_laid_out;
use ir_values::Ty;
use ltt_base::{List, Text};
use std::test::Fail;
use unit_grammar::{is_one_of, one, two};

#[test]
fn answers_stay(rt: HostRuntime) {
    let mut stuck = Lexer::new(b"a ?", 3);
    let mut ended = Lexer::new(b"a", 3);
    let _ = stuck.next();
    let _ = ended.next();
    for _ in 0..2 {
        let at = match stuck.next() {
            Err(place) => (place.file, place.line, place.column),
            Ok(_) => (0, 0, 0),
        };
        assert_eq!(rt; at, (3, 1, 3));
        assert!(rt; matches!(ended.next(), Ok(None)));
    }
}

#[test]
fn a_line_ends_between(rt: HostRuntime) {
    let text = b"a ; c\n b";
    assert!(rt; breaks_line(text, 1, 7));
    assert!(rt; !breaks_line(text, 1, 5));
    lines_tell_first();
    readings_agree();
    readings_end();
    words_stand_once();
}

#[test]
fn words_have_codes(rt: HostRuntime) {
    let keywords = keywords();
    for (word, code) in [
        ("addrspace", 0),
        ("align", 3),
        ("weak", 128),
        ("zeroext", 133),
    ] {
        assert_eq!(rt; keywords.code_of(word), Some(code), "at {word}");
        assert_eq!(rt; keywords.word_of(code), Some(word), "at {code}");
    }
    for word in ["", "al", "alignx", "add", "zz"] {
        assert_eq!(rt; keywords.code_of(word), None, "at {word}");
    }
    assert_eq!(rt; KEYWORDS, 134);
    assert!(rt; keywords.word_of(134).is_none());
    assert_eq!(rt; operations().code_of("xor"), Some(12));
    assert_eq!(rt; operations().word_of(0), Some("add"));
    assert_eq!(rt; predicates().code_of("eq"), Some(0));
    assert_eq!(rt; predicates().word_of(9), Some("ult"));
}

#[test]
fn short_lists(rt: HostRuntime) -> Result<(), Fail> {
    assert!(rt; one(rt.alloc(), 7u64)?.items() == [7].as_slice());
    assert!(rt; two(rt.alloc(), 7u64, 8)?.items() == [7, 8].as_slice());
    assert!(rt; is_one_of(b"a", &["b", "a"]));
    assert!(rt; !is_laid_out(&Ty::Pair));
    Ok(())
}

#[test]
fn a_table_leads_to_its_functions(rt: HostRuntime) -> Result<(), Fail> {
    let alloc = rt.alloc();
    let row = Row {
        name: Text::copy(alloc, b"t")?,
        base: 4096,
        constant: true,
        leads: one(alloc, Goal::External(Text::copy(alloc, b"f")?))?,
    };
    let memory = Numeric {
        rows: one(alloc, row)?,
        cells: List::new(alloc),
    };
    assert!(rt; matches!(memory.goal(alloc, 4096), Ok(Some(Goal::External(_)))));
    Ok(())
}
