// What holds of the definitions alone.
ghost use Rattle.type_metadata.specs.Laws.{IdentifiersLaw, CarriersLaw, ExampleLaw};

/// The identifiers are exactly those that something carries, each once.
pub fn identifiers_are_carried()
    ensures { IdentifiersLaw }
{}

/// The carriers of an identifier are exactly the objects and offsets that carry it, each once.
pub fn carriers_carry()
    ensures { CarriersLaw }
{}

/// A definition in another file carries an identifier, and a declaration doesn't.
pub fn some_definition_carries()
    ensures { ExampleLaw }
{}
