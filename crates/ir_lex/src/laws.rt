//! What holds of every text and of every table.
ghost use Rattle.ir_lex.specs.Laws.{LinesTellFirst, ReadingsAgree, ReadingsEnd, StucksAgree, WordsStandOnce};

/// A text has at most one list of tokens.
pub fn readings_agree()
    ensures { ReadingsAgree }
{}

/// A text that has tokens is stuck nowhere: behind no tokens of it a byte stands at which none begins.
pub fn readings_end()
    ensures { ReadingsEnd }
{}

/// A text is stuck at one place at most.
pub fn stucks_agree()
    ensures { StucksAgree }
{}

/// A token behind another stands first on its line exactly if a line ends between the two. The first token does so.
pub fn lines_tell_first()
    ensures { LinesTellFirst }
{}

/// No word stands twice in a table, so a word has one code. `code_of` and `word_of` are inverse where they answer.
pub fn words_stand_once()
    ensures { WordsStandOnce }
{}
