ghost use Rattle.type_grammar.specs.Laws.{OpenedIsTold};

/// Where a type, a constant or a part of a node is opened one level deeper than may be, the reader tells it.
pub fn opened_is_told()
    ensures { OpenedIsTold }
{}
