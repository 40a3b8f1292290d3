// What the order of hook calls needs of a module.

ghost use Rattle.std.specs.Prelude.{◌≡◌, ◌<◌, ◌^◌, IsTrue, IsSome, IfOk, length, slice_get};
ghost use Rattle.std.specs.Option.{option_copied};
ghost use Rattle.wasm_syntax.specs.Index.{all_globals};
ghost use Rattle.record_replay_spec.specs.Hooks.{renumber};
ghost use Rattle.record_replay_spec.specs.Order.{is_defined, is_function};
ghost use Rattle.hook_order.specs.Shapes.{HaveIndices, parts_of, shape_from};

use base::NoMemory;
use hook_names::HOOK_COUNT;
use module_index::scope::Scope;
use std::alloc::Global;
use std::marker::Model;
use wasm_syntax::{FuncType, FuncTypes, GlobalType, Module};

/// What the order of hook calls needs of a module in the hooked form: the numbers of functions that its original
/// imports and defines, the types of its functions and globals, and whether it has a memory.
#[derive(Drop)]
pub struct Shape {
    imports: u32,
    defined: u32,
    types: FuncTypes,
    funcs: Vec<u32>,
    memory: bool,
    globals: Vec<GlobalType>,
}

impl Model for Shape {
    ghost use Rattle.hook_order.specs.Shapes.{HaveIndices, ShapeParts};

    ghost Value = { ShapeParts };

    ghost view = { λ shape. record {
      imports = shape.imports;
      defined = shape.defined;
      types = shape.types;
      funcs = shape.funcs.items;
      memory = shape.memory;
      globals = shape.globals.items;
    } };

    ghost invariant = { λ shape. HaveIndices shape.imports shape.defined shape.globals.items };
}

impl Shape {
    /// The shape of a module in the hooked form, whose original imports `imports` functions. Each function of the
    /// module and each global has an index of 32 bits.
    ///
    /// # Errors
    /// `NoMemory` if an allocation failed.
    pub fn of(alloc: Global, module: &Module, imports: u32) -> Result<Shape, NoMemory>
        requires { HaveIndices imports (length «module».now.funcs) (all_globals «module».now) }
        ensures { IfOk result (λ shape. shape ≡ parts_of imports «module».now) }
    {
        let scope = Scope::of(alloc, module)?;
        let defined = module.funcs.as_slice().len() as u32;
        let types = module.types.clone()?;
        let funcs = Vec::from_slice(alloc, scope.funcs())?;
        let globals = Vec::from_slice(alloc, scope.globals())?;
        Ok(Shape {
            imports,
            defined,
            types,
            funcs,
            memory: scope.has_memory(0),
            globals,
        })
    }

    /// The number of functions that the original imports.
    #[inline]
    pub fn imports(&self) -> u32
        ensures { result ≡ self.now.imports }
    {
        self.imports
    }

    /// Whether the module has a memory.
    #[inline]
    pub fn has_memory(&self) -> bool
        ensures { result ≡ self.now.memory }
    {
        self.memory
    }

    /// The type of a global.
    #[inline]
    pub fn global(&self, index: u64) -> Option<GlobalType>
        ensures ty { result ≡ slice_get self.now.globals index }
        ensures index { IsSome result → index < 2 ^ 32 }
    {
        self.globals.get(index as usize).copied()
    }

    /// Whether the original has a function of this index.
    #[inline]
    pub fn is_function(&self, func: u64) -> bool
        ensures is { result ≡ is_function (shape_from self.now) func }
        ensures index { IsTrue result → func < 2 ^ 32 }
    {
        func < u64::from(self.imports) + u64::from(self.defined)
    }

    /// Whether the original defines a function of this index.
    #[inline]
    pub fn is_defined(&self, func: u64) -> bool
        ensures is { result ≡ is_defined (shape_from self.now) func }
        ensures index { IsTrue result → func < 2 ^ 32 }
    {
        u64::from(self.imports) <= func && self.is_function(func)
    }

    /// The index in the module of a function of the original.
    #[inline]
    fn place_of(&self, func: u32) -> usize
        ensures { result ≡ renumber self.now.imports func }
    {
        if func < self.imports {
            func as usize
        } else {
            func as usize + HOOK_COUNT as usize
        }
    }

    /// The type of a function of the original.
    pub fn func_type(&self, func: u32) -> Option<&FuncType>
        ensures { option_copied result ≡ (shape_from self.now).type_of func }
    {
        match self.funcs.get(self.place_of(func)) {
            Some(index) => self.types.as_slice().get(*index as usize),
            None => None,
        }
    }
}
