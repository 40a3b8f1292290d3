// Counts by name.

ghost use Rattle.std.specs.Prelude.{◌≡◌, ℕ, ◌≤◌, List, OnOk, OnErr};
ghost use Rattle.std.specs.FinMap as map;
ghost use Rattle.r3_outside.specs.Count.{saturating_add, NoneFell};
ghost use Rattle.r3_outside.specs.NameCounts.{no_counts, count_of, IsCountedFor};

use crate::NoMemory;
use std::alloc::Global;
use std::collections::BTreeMap;
use std::marker::Model;

#[cfg(test)]
mod tests;

/// Counts by name. What is counted without memory for its name counts for every name.
#[derive(Drop)]
pub(crate) struct Counts {
    alloc: Global,
    listed: BTreeMap<String, u64>,
    unlisted: u64,
}

impl Model for Counts {
    ghost use Rattle.r3_outside.specs.NameCounts.{NameCounts, name_counts_code};
    ghost use Rattle.r3_outside.specs.Stores.{by_name};

    ghost Value = { NameCounts };

    ghost coded = { name_counts_code };

    ghost view = { λ c. record { listed = by_name (λ count. count) c.listed.entries; unlisted = c.unlisted } };
}

impl Counts {
    /// Nothing is counted yet. Takes no memory.
    pub(crate) fn new(alloc: Global) -> Counts
        ensures { result ≡ no_counts }
    {
        Counts {
            alloc,
            listed: BTreeMap::new(alloc),
            unlisted: 0,
        }
    }

    /// Adds to the count of a name, or to every count if there is no memory for the name.
    pub(crate) fn add(&mut self, name: &str, more: u64)
        ensures counted { IsCountedFor name.now more self.old self.new }
        ensures count { count_of self.new name.now ≡ saturating_add (count_of self.old name.now) more }
        ensures none_fell { NoneFell (count_of self.old) (count_of self.new) }
    {
        match self.listed.get_mut(name) {
            Some(count) => *count = count.saturating_add(more),
            None => match self.list(name, more) {
                Ok(()) => {}
                Err(_) => self.unlisted = self.unlisted.saturating_add(more),
            },
        }
    }

    /// Lists a name with its number. If memory runs out the counts are as they were.
    fn list(&mut self, name: &str, count: u64) -> Result<(), NoMemory>
        ensures ok { OnOk result
            (self.new ≡ record self.old { listed = map.insert self.old.listed name.now count }) }
        ensures err { OnErr result (self.new ≡ self.old) }
    {
        let name = String::from_str(self.alloc, name)?;
        self.listed.insert(name, count)?;
        Ok(())
    }
}
