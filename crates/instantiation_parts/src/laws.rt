// The law of instantiated stores.

ghost use Rattle.instantiation_parts.specs.Parts.{InstantiatedStoresHaveParts};

/// The store that a module is instantiated with has the parts that its definition names, and all
/// segments fit.
pub fn instantiated_parts()
    ensures { InstantiatedStoresHaveParts }
{}
