// Lists that grow at their front.

ghost use Rattle.std.specs.Prelude.{◌≡◌, [], ◌∷◌, drop, MatchOption, OnOk};

use base::NoMemory;
use std::alloc::Global;
use std::marker::Model;
use wasm_syntax::List;

/// A list that owns its items and grows at its front. It stores its last item first.
#[derive(Drop)]
pub(crate) struct FrontList<T> {
    items: Vec<T>,
}

impl<T> Model for FrontList<T> {
    ghost use Rattle.std.specs.Prelude.{List, reverse};

    ghost Value = { List T };

    ghost view = { λ list. reverse list.items.items };
}

impl<T: Drop> FrontList<T> {
    /// The list without items. Takes no memory.
    pub(crate) fn new(alloc: Global) -> FrontList<T>
        ensures { result ≡ [] }
    {
        FrontList {
            items: Vec::new(alloc),
        }
    }

    /// Puts an item in front of all others.
    pub(crate) fn push(&mut self, item: T) -> Result<(), NoMemory>
        ensures { OnOk result (self.new ≡ item ∷ self.old) }
    {
        self.items.push(item)?;
        Ok(())
    }

    /// Removes the first item and returns it.
    pub(crate) fn pop(&mut self) -> Option<T>
        ensures first { MatchOption result (self.old ≡ []) (λ first. self.old ≡ first ∷ self.new) }
        ensures none { MatchOption result (self.new ≡ []) (λ first. self.new ≡ drop 1 self.old) }
    {
        self.items.pop()
    }

    /// The items from the first on. Takes no memory.
    pub(crate) fn into_list(self) -> List<T>
        ensures { result ≡ self }
    {
        let FrontList { items } = self;
        let mut items = items;
        items.reverse();
        List::from_vec(items)
    }
}
