ghost use Rattle.due_answers.specs.Laws.{AcceptedIsDone, OneIsDue};

/// Law: where the files tell the text that the words ask for, one text or one line is due at most.
pub fn one_is_due()
    ensures { OneIsDue }
{
    ir_text::answers_agree();
    thin_files::thin_is_determined();
}

/// Law: a call by which a text is due, and in which no count of faults rose, ends with status 0 or 5.
pub fn accepted_is_done()
    ensures { AcceptedIsDone }
{
    one_is_due();
}
