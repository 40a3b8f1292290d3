// The ends of chains of imports. Chains may be as long as both modules have imports, so that following each anew would
// take time in the square of their number. Instead, where all chains are after `n` imports gives where they are after
// twice as many.

ghost use Rattle.std.specs.Prelude.{◌≡◌, ◌+◌, ◌≤◌, ◌<◌, ◌^◌, IfOk, length};
ghost use Rattle.pair_ends.specs.Spaces.{space as space_of};
ghost use Rattle.pair_ends.specs.Ends.{AreAllEnds, AreEnds, JumpsOfEach, end_at, ends_on, jump_end};

use crate::jumps::{End, Jump, Jumps};
use crate::modules::LinkedModules;
use crate::spaces::IndexSpace;
use base::NoMemory;
use instance_spec::Side;
use std::alloc::Global;

/// The end of the chain from each index of a space, on both sides.
#[derive(Drop)]
pub struct Ends {
    jumps: Jumps,
}

/// The ends of all chains of a pair.
#[derive(Drop)]
pub struct PairEnds {
    pub funcs: Ends,
    pub tables: Ends,
    pub memories: Ends,
    pub globals: Ends,
}

/// The ends of all chains of a space. Takes time in the number of imports and its logarithm.
///
/// # Errors
///
/// `NoMemory` if an allocation failed.
pub fn ends_in(alloc: Global, pair: &LinkedModules, space: IndexSpace) -> Result<Ends, NoMemory>
    requires { length pair.now.left.imports + length pair.now.right.imports < 2 ^ 32 }
    ensures { IfOk result (λ ends. AreEnds pair.now (space_of space) ends) }
{
    let left = pair.module(Side::Left).imports.as_slice().len();
    let right = pair.module(Side::Right).imports.as_slice().len();
    let firsts = Jumps::of_imports(alloc, pair, space)?;
    let jumps = jumps_after(alloc, &firsts, left + right + 1)?;
    Ok(Ends { jumps })
}

/// Where chains are after `count` imports, given where they are after one.
fn jumps_after(alloc: Global, firsts: &Jumps, count: usize) -> Result<Jumps, NoMemory>
    requires { 1 ≤ count }
    ensures { IfOk result (λ jumps. JumpsOfEach count firsts.now jumps) }
{
    if count == 1 {
        return firsts.copy(alloc);
    }
    let half = jumps_after(alloc, firsts, count / 2)?;
    let double = half.then(alloc, &half)?;
    if count % 2 == 0 {
        Ok(double)
    } else {
        double.then(alloc, firsts)
    }
}

/// The end of a chain, if it is there.
fn end_of_jump(jump: Jump) -> Option<End>
    ensures { result ≡ jump_end jump }
{
    match jump {
        Jump::Ends(end) => Some(end),
        Jump::Missing | Jump::Goes(..) => None,
    }
}

impl PairEnds {
    /// The ends of all chains of a pair. Takes time in the number of imports and its logarithm.
    ///
    /// # Errors
    ///
    /// `NoMemory` if an allocation failed.
    pub fn of(alloc: Global, pair: &LinkedModules) -> Result<PairEnds, NoMemory>
        requires { length pair.now.left.imports + length pair.now.right.imports < 2 ^ 32 }
        ensures { IfOk result (λ ends. AreAllEnds pair.now ends) }
    {
        let funcs = ends_in(alloc, pair, IndexSpace::Funcs)?;
        let tables = ends_in(alloc, pair, IndexSpace::Tables)?;
        let memories = ends_in(alloc, pair, IndexSpace::Memories)?;
        let globals = ends_in(alloc, pair, IndexSpace::Globals)?;
        Ok(PairEnds {
            funcs,
            tables,
            memories,
            globals,
        })
    }

    /// The ends of the chains of a space.
    pub fn on(&self, space: IndexSpace) -> &Ends
        ensures { result.now ≡ ends_on self.now space }
    {
        match space {
            IndexSpace::Funcs => &self.funcs,
            IndexSpace::Tables => &self.tables,
            IndexSpace::Memories => &self.memories,
            IndexSpace::Globals => &self.globals,
        }
    }
}

impl Ends {
    /// The end of the chain from an index, if no export is missing on it and it does not come back to itself.
    pub fn at(&self, side: Side, index: usize) -> Option<End>
        ensures { result ≡ end_at self.now side index }
    {
        end_of_jump(self.jumps.at(side, index))
    }
}
