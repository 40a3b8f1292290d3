// The function whose body is instrumented.

ghost use Rattle.std.specs.Prelude.{◌≡◌, ◌<◌};
ghost use Rattle.wasm_syntax.specs.Index.{imported_funcs};
ghost use Rattle.wasm_flat.specs.Sizes.{list_limit};
ghost use Rattle.record_replay_spec.specs.Hooks.{hook_count, hook_place, renumber};
ghost use Rattle.record_replay_spec.specs.Insertions.{Site, address_local as address_of, calls, imports_at, value_local as value_of};

use hook_names::{Hook, renumber};
use module_index::scope::Scope;
use std::marker::Model;
use wasm_syntax::{Instr, ValType};

/// A function whose body is instrumented: what is looked up in its module, the number of functions that the
/// module imports, the function's index, and the number of its parameters and locals.

#[derive(Drop)]
pub(crate) struct BodySite<'a> {
    scope: &'a Scope<'a>,
    imports: u32,
    func: u32,
    locals: u32,
}

impl<'a> Model for BodySite<'a> {
    ghost use Rattle.record_replay_spec.specs.Insertions.{Site};
    ghost use Rattle.hook_insert.specs.Sites.{IsSite};

    ghost Value = { Site };

    ghost view = { λ s. record { m = s.scope.now; func = s.func; locals = s.locals } };

    ghost invariant = { λ s. IsSite s.scope.now s.imports s.locals };
}

impl<'a> BodySite<'a> {
    /// The function of this index, with this number of parameters and locals. Takes no memory.
    pub(crate) fn new(scope: &'a Scope<'a>, imports: u32, func: u32, locals: u32) -> BodySite<'a>
        requires imports { imports ≡ imported_funcs scope.now }
        requires few_imports { imports < list_limit }
        requires few_locals { locals < list_limit }
        ensures { result ≡ record { m = scope.now; func = func; locals = locals } }
    {
        BodySite {
            scope,
            imports,
            func,
            locals,
        }
    }

    /// What is looked up in its module.
    pub(crate) fn scope(&self) -> &'a Scope<'a>
        ensures { result.now ≡ self.now.m }
    {
        self.scope
    }

    /// The function's index.
    pub(crate) fn func(&self) -> u32
        ensures { result ≡ self.now.func }
    {
        self.func
    }

    /// A call of a hook.
    pub(crate) fn hook_call(&self, kind: Hook) -> Instr
        ensures { result ≡ calls self.now kind }
    {
        Instr::Call(self.imports + place_of(kind))
    }

    /// The index in the instrumented module of a function of the original.
    pub(crate) fn new_index(&self, func: u32) -> u32
        requires { func < list_limit }
        ensures { result ≡ renumber (imports_at self.now) func }
    {
        renumber(self.imports, func)
    }

    /// The local for an address or an index.
    pub(crate) fn address_local(&self) -> u32
        ensures { result ≡ address_of self.now }
    {
        self.locals
    }

    /// The local for a value of a type.
    pub(crate) fn value_local(&self, ty: ValType) -> u32
        ensures { result ≡ value_of self.now ty }
    {
        self.locals
            + match ty {
                ValType::I32 | ValType::FuncRef => 1,
                ValType::I64 => 2,
                ValType::F32 => 3,
                ValType::F64 => 4,
            }
    }
}

/// The index of a hook among the imports of hooks.
pub(crate) fn place_of(kind: Hook) -> u32
    ensures place { result ≡ hook_place kind }
    ensures within { result < hook_count }
{
    match kind {
        Hook::Arg => 0,
        Hook::Enter => 1,
        Hook::Leave => 2,
        Hook::Pre => 3,
        Hook::Post => 4,
        Hook::Ipre => 5,
        Hook::Ipost => 6,
        Hook::Load => 7,
        Hook::Store => 8,
        Hook::Size => 9,
        Hook::Grow => 10,
        Hook::Gget => 11,
        Hook::Gset => 12,
        Hook::Copy => 13,
        Hook::Fill => 14,
    }
}
