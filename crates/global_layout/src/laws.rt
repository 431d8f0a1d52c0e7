ghost use Rattle.global_layout.specs.Laws as law;

/// Laws: exactly the objects that an identifier lists have homes; each object of a group has its home
/// there; the slots of a combined variable don't overlap, nor do homes; and the objects of an identifier
/// stand in one group.
///
/// Source: Control Flow Integrity Design, "Virtual Table Layout".
pub fn objects_have_homes()
    ensures listed { law.ListedHaveHomes }
    ensures homes { law.ObjectsHaveHomes }
    ensures apart { law.SlotsAreApart }
    ensures homes_apart { law.HomesAreApart }
    ensures together { law.ObjectsStandTogether }
{}

/// A law: what `arrange` asks of identifiers and shapes is met by a worked example.
pub fn example_is_met()
    ensures { law.ExampleIsMet }
{}
