// The generated part of a replay module.

ghost use Rattle.std.specs.Prelude.{◌≡◌, ◌∷◌, ◌<◌, ◌^◌, IfOk, length};
ghost use Rattle.wasm_syntax.specs.Index.{func_indices};
ghost use Rattle.replay_module_spec.specs.Fragments.{fragment_of, helper_funcs, import_bodies, import_types};
ghost use Rattle.replay_gen.specs.Bounds.{FitsIndices, fragment_of_funcs};

use crate::funcs::start_func;
use crate::imports::{push_group_funcs, push_import_funcs};
use crate::parts::{appended_types, counters};
use crate::references::referred_once;
use base::NoMemory;
use module_index::scope::Scope;
use replay_module_spec::{Fragment, Plan};
use std::alloc::Global;
use wasm_syntax::{Func, List, Module};

/// The generated part of a plan for a module.
///
/// # Errors
///
/// `NoMemory` if memory is out.
pub fn generate(alloc: Global, plan: &Plan, module: &Module) -> Result<Fragment, NoMemory>
    requires { FitsIndices «module».now plan.now }
    ensures { IfOk result (λ fragment. fragment ≡ fragment_of «module».now plan.now) }
{
    let scope = Scope::of(alloc, module)?;
    let bodies = import_bodies(alloc, &scope, plan)?;
    let helpers = helper_funcs(alloc, &scope, plan)?;
    with_functions(alloc, &scope, bodies, helpers)
}

/// The functions in the places of imports.
fn import_bodies(alloc: Global, scope: &Scope<'_>, plan: &Plan) -> Result<Vec<Func>, NoMemory>
    requires { FitsIndices scope.now plan.now }
    ensures { IfOk result (λ bodies. bodies.items ≡ import_bodies scope.now plan.now) }
{
    let mut bodies = Vec::with_capacity(alloc, scope.imported_funcs())?;
    let counter = scope.globals().len() as u32;
    let first = scope.funcs().len() as u32 + 1;
    push_import_funcs(
        alloc,
        &mut bodies,
        scope,
        counter,
        first,
        import_types(scope),
        plan.imports.as_slice(),
    )?;
    Ok(bodies)
}

/// The function for the host's own work, and the functions of all groups.
fn helper_funcs(alloc: Global, scope: &Scope<'_>, plan: &Plan) -> Result<Vec<Func>, NoMemory>
    requires { FitsIndices scope.now plan.now }
    ensures { IfOk result (λ helpers. helpers.items ≡ helper_funcs scope.now plan.now) }
{
    let mut helpers = Vec::new(alloc);
    helpers.push(start_func(alloc, scope, plan.begin.as_slice())?)?;
    push_group_funcs(
        alloc,
        &mut helpers,
        scope,
        import_types(scope),
        plan.imports.as_slice(),
    )?;
    Ok(helpers)
}

/// The type indices of the imported functions.
fn import_types<'b>(scope: &'b Scope<'_>) -> &'b [u32]
    ensures { result.now ≡ import_types scope.now }
{
    &scope.funcs()[..scope.imported_funcs()]
}

/// The generated part with the functions in the places of imports and the other functions.
fn with_functions(
    alloc: Global,
    scope: &Scope<'_>,
    bodies: Vec<Func>,
    helpers: Vec<Func>,
) -> Result<Fragment, NoMemory>
    requires { length (func_indices scope.now) < 2 ^ 32 }
    ensures { IfOk result (λ fragment. fragment ≡ fragment_of_funcs scope.now bodies.items helpers.items) }
{
    let entry = scope.funcs().len() as u32;
    let own = scope.module().funcs.as_slice();
    let declared = referred_once(alloc, entry, bodies.as_slice(), own, helpers.as_slice())?;
    let types = appended_types(alloc)?;
    let globals = counters(alloc, scope.imported_funcs())?;
    Ok(Fragment {
        bodies: List::from_vec(bodies),
        helpers: List::from_vec(helpers),
        entry,
        types,
        globals,
        declared,
    })
}
