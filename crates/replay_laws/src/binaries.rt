// The replay module of a tape.

ghost use Rattle.std.specs.Prelude.{◌≡◌, ◌≤◌, IfOk, length};
ghost use Rattle.wasm_syntax.specs.Encoding.Forms.{IsCoreModule};
ghost use Rattle.wasm_syntax.specs.Encoding.Shortest.{encoding_of};
ghost use Rattle.wasm_syntax.specs.Index.{imported_funcs};
ghost use Rattle.history_spec.specs.Store.{Store};
ghost use Rattle.type_safety.specs.Supplies.{IsSupply};
ghost use Rattle.trace_model.specs.Fitting.{IsFitting};
ghost use Rattle.trace_model.specs.Weight.{tape_weight};
ghost use Rattle.replay_module_spec.specs.Plans.{plan_of};
ghost use Rattle.replay_module_spec.specs.Size.{max_bytes};
ghost use Rattle.replay_module_laws.specs.Written.{IsConstantTape};
ghost use Rattle.replay_gen.specs.Bounds.{FitsIndices};
ghost use Rattle.generated_code_laws.specs.Playable.{IsPlayable, replay_of};
ghost use Rattle.replay_laws.specs.Follows.{FollowsTape};

use crate::laws::replay_modules_follow_tapes;
use base::NoMemory;
use host_script::Supply;
use module_merge::merge;
use replay_encoding_laws::{fragments_fit, replay_modules_are_short};
use replay_gen::generate;
use replay_plan::plan;
use std::alloc::Global;
use trace_model::Tape;
use wasm_validate::Checked;

/// The replay module of a tape, for a module and a supply for its imports. The tape fits the module, its values
/// are constants, and all indices of the generated parts have 32 bits, as they have if each list of the module has at
/// most 2^27 items and the tape weighs at most `MAX_TAPE_WEIGHT` (`short_lists_fit_indices`). If the module begins with
/// a store, and the tape weighs at most `MAX_TAPE_WEIGHT`, the run of the replay module follows that of the tape from
/// this store. If the module is of the form Core, the shortest encoding of the replay module has at most as many bytes
/// as `max_bytes` says.
///
/// # Errors
///
/// If an allocation failed.
pub fn build_binary(
    alloc: Global,
    module: Checked,
    supply: &Supply,
    tape: Tape,
) -> Result<Checked, NoMemory>
    requires supplied { IsSupply «module» supply.now }
    requires fits { IsFitting «module» tape }
    requires constants { IsConstantTape tape }
    requires indices { FitsIndices «module» (plan_of (imported_funcs «module») tape) }
    ensures replay { IfOk result (λ replay. replay ≡ replay_of «module» supply.now tape) }
    ensures short { IsCoreModule «module»
        → IfOk result (λ replay. length (encoding_of replay) ≤ max_bytes «module» (tape_weight tape)) }
    ensures follows { (store : Store) → IsPlayable «module» supply.now store tape
        → FollowsTape «module» supply.now store tape }
{
    replay_modules_follow_tapes();
    merged_binary(alloc, module, supply, tape)
}

/// The replay module of a tape, from its plan and generated parts.
fn merged_binary(
    alloc: Global,
    module: Checked,
    supply: &Supply,
    tape: Tape,
) -> Result<Checked, NoMemory>
    requires supplied { IsSupply «module» supply.now }
    requires fits { IsFitting «module» tape }
    requires constants { IsConstantTape tape }
    requires indices { FitsIndices «module» (plan_of (imported_funcs «module») tape) }
    ensures replay { IfOk result (λ replay. replay ≡ replay_of «module» supply.now tape) }
    ensures short { IsCoreModule «module»
        → IfOk result (λ replay. length (encoding_of replay) ≤ max_bytes «module» (tape_weight tape)) }
{
    fragments_fit();
    replay_modules_are_short();
    let plan = plan(alloc, tape, module.module())?;
    let fragment = generate(alloc, &plan, module.module())?;
    merge(alloc, module, supply, fragment)
}
