ghost use Rattle.ir_text.specs.Laws.{UnitsAgree, UnitsEnd, UnitsAreFlat, StopsAgree, NestsAgree, NestsNeverStop, ReadingsAgree, ReadingsEnd, RefusalsAgree};

/// A list of tokens is read in one way at most: it is one list of units, or it stops or nests too deep at one token.
pub fn units_agree()
    ensures agree { UnitsAgree }
    ensures end { UnitsEnd }
    ensures flat { UnitsAreFlat }
    ensures stop { StopsAgree }
    ensures nest { NestsAgree }
    ensures either { NestsNeverStop }
{}

/// A text has one answer at most: one list of units, or one refusal.
pub fn answers_agree()
    ensures agree { ReadingsAgree }
    ensures end { ReadingsEnd }
    ensures refusals { RefusalsAgree }
{
    ir_lex::readings_agree();
    ir_lex::readings_end();
    ir_lex::stucks_agree();
}
