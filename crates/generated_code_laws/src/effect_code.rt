// Laws on the code of effects.

ghost use Rattle.generated_code_laws.specs.EffectLaws.{EffectsAreMade};

/// The code of effects does to a store what the effects do; it shows no entry, makes their changes, and takes at most
/// the steps that their weight allows.
pub fn effects_are_made()
    ensures { EffectsAreMade }
{}
