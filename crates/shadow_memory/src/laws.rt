// The law of the bytes taken.

ghost use Rattle.shadow_memory.specs.Takings.{TakingsAreAMap};

/// The known bytes are a finite map of the bytes taken, over the opening.
pub fn takings_are_a_map()
    ensures { TakingsAreAMap }
{}
