// Typing of the functions of a module.

ghost use Rattle.std.specs.Prelude.{◌≡◌, IsTrue, not, length, position, IfOk, IfSome, ◌<◌};
ghost use Rattle.std.specs.List.{list_all};
ghost use Rattle.wasm_syntax.specs.ValidityTests.{is_func_type, is_typed_func};

use crate::body::is_typed;
use crate::func_scope::FuncScope;
use crate::stacks::Stacks;
use base::NoMemory;
use module_index::locals::{Locals, RunEnd};
use module_index::result_of;
use module_index::scope::Scope;
use std::alloc::Global;
use wasm_syntax::{Func, bodies_are_read};

/// The place of the first defined function whose body has no typing.
pub(crate) fn first_untyped(alloc: Global, scope: &Scope) -> Result<Option<usize>, NoMemory>
    requires { IsTrue (list_all is_func_type scope.now.types) }
    ensures place { IfOk result (λ place. place ≡ position (λ f. not (is_typed_func scope.now f)) scope.now.funcs) }
    ensures within { IfOk result (λ place. IfSome place (λ p. p < length scope.now.funcs)) }
{
    let mut stacks = Stacks::new(alloc);
    let mut ends = Vec::new(alloc);
    'funcs: for (place, func) in scope.module().funcs.as_slice().iter().enumerate() {
        let (typed, kept) = check(&mut stacks, ends, scope, func)?;
        if !typed {
            return Ok(Some(place));
        }
        ends = kept;
    }
    Ok(None)
}

/// Whether the body of a function has a typing. Both stacks and the vector are used again.
fn check(
    stacks: &mut Stacks,
    ends: Vec<RunEnd>,
    scope: &Scope,
    func: &Func,
) -> Result<(bool, Vec<RunEnd>), NoMemory>
    requires { IsTrue (list_all is_func_type scope.now.types) }
    ensures { IfOk result (λ checked. checked.0 ≡ is_typed_func scope.now func.now) }
{
    bodies_are_read();
    let Some(ty) = scope.type_at(func.ty) else {
        return Ok((false, ends));
    };
    let locals = Locals::of(ends, ty.params.as_slice(), func.locals.as_slice())?;
    let known = FuncScope {
        scope,
        locals: &locals,
        outcome: result_of(ty),
    };
    let typed = is_typed(stacks, &known, func.body.as_slice())?;
    Ok((typed, locals.into_ends()))
}
