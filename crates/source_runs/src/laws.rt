// What holds of words and the numbers that they write.
ghost use Rattle.source_runs.specs.Laws.{DecimalsAreRead, OnlyDecimalsAreRead, AnswersAreRead, OnlyAnswersAreRead};

/// A word is read as a number exactly where it is the number's decimal.
pub fn numbers_are_decimals()
    ensures read { DecimalsAreRead }
    ensures only { OnlyDecimalsAreRead }
{}

/// A word is read as answers exactly where it is `-` for none, or their decimals with commas between them.
pub fn answers_are_decimals()
    ensures read { AnswersAreRead }
    ensures only { OnlyAnswersAreRead }
{}
