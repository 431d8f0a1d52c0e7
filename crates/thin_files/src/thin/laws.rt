ghost use Rattle.thin_files.specs.Laws.{ThinIsDetermined, ThinIsPossible};

/// Units are one thin file at most.
pub fn thin_is_determined()
    ensures { ThinIsDetermined }
{}

/// Some units are a thin file.
pub fn thin_is_possible()
    ensures { ThinIsPossible }
{}
