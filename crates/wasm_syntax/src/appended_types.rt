// Numbers for function types that are appended to a module.

ghost use Rattle.std.specs.Prelude.{◌≡◌, ◌+◌, ◌-◌, ◌^◌, ◌<◌, ◌≤◌, [], length, IfOk, OnOk, OnErr};
ghost use Rattle.wasm_syntax.specs.AppendedTypes.{AreDistinct, HasNumber, Asks};

use crate::lists::{Item, List};
use crate::signatures::{FuncType, FuncTypes};
use base::NoMemory;
use indexmap::IndexSet;
use std::alloc::Global;
use std::marker::Model;

/// Function types that are appended to others, each once, with the indices that they get.
#[derive(Drop)]
pub struct Types {
    alloc: Global,
    count: u32,
    types: IndexSet<FuncType>,
}

impl Model for Types {
    ghost use Rattle.wasm_syntax.specs.AppendedTypes.{AppendedTypes, AreDistinct};

    ghost Value = { AppendedTypes };

    ghost view = { λ appended. record { count = appended.count; types = appended.types.keys } };

    ghost invariant = { λ appended. AreDistinct appended.types.keys };
}

impl Types {
    /// No appended type yet, after `count` others. Takes no memory.
    pub fn after(alloc: Global, count: u32) -> Types
        ensures { result ≡ record { count = count; types = [] } }
    {
        Types {
            alloc,
            count,
            types: IndexSet::new(alloc),
        }
    }

    /// The index of a type, which is added last if it is not among the appended ones.
    ///
    /// # Errors
    ///
    /// When memory runs out; no type is added then.
    pub fn number(&mut self, ty: &FuncType) -> Result<u32, NoMemory>
        requires { self.old.count + length self.old.types < 2 ^ 32 - 1 }
        ensures number { IfOk result (HasNumber self.new ty.now) }
        ensures asked { OnOk result (Asks ty.now self.old self.new) }
        ensures distinct { AreDistinct self.new.types }
        ensures count { self.new.count ≡ self.old.count }
        ensures one_more { length self.new.types ≤ length self.old.types + 1 }
        ensures err { OnErr result (self.new ≡ self.old) }
    {
        if let Some(place) = self.types.get_index_of(ty) {
            return Ok(self.count + place as u32);
        }
        let (place, _added) = self.types.insert_full(ty.copy()?)?;
        Ok(self.count + place as u32)
    }

    /// The appended types in the order of their indices.
    ///
    /// # Errors
    ///
    /// When memory runs out.
    pub fn into_list(self) -> Result<FuncTypes, NoMemory>
        ensures list { IfOk result (λ list. list ≡ self.types) }
        ensures distinct { IfOk result AreDistinct }
    {
        let Types {
            alloc,
            count: _,
            types,
        } = self;
        Ok(List::from_vec(types.into_iter().collect(alloc)?))
    }
}
