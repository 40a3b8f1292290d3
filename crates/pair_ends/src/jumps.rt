// Where chains of imports are after a number of imports.

ghost use Rattle.std.specs.Prelude.{◌≡◌, IfOk, map};
ghost use Rattle.pair_spec.specs.Pairs.{imports_in, module_of};
ghost use Rattle.pair_ends.specs.Spaces.{space as space_of};
ghost use Rattle.pair_ends.specs.Jumps.{AreFirstJumps, AreJoined, AreSame, jump_at, jump_of, jump_then, jump_to, jumps_of, side_jumps};

use crate::modules::{LinkedModules, is_from_other, other_side};
use crate::spaces::IndexSpace;
use base::NoMemory;
use instance_spec::Side;
use std::alloc::Global;
use wasm_syntax::Import;

/// The end of a chain of imports, by its index in the module of a side: a definition, or an import that is the host's.
#[derive(Clone, Copy)]
pub enum End {
    Defined(Side, usize),
    HostImport(Side, usize),
}

/// Where a chain is after a number of imports: at its end, or at a further index. Or it has no end, since an export is
/// missing.
#[derive(Clone, Copy)]
pub(crate) enum Jump {
    Ends(End),
    Missing,
    Goes(Side, usize),
}

/// Where the chains from all imports of a space are after the same number of imports, by side and index.
#[derive(Drop)]
pub(crate) struct Jumps {
    left: Vec<Jump>,
    right: Vec<Jump>,
}

/// Where the chain is behind an import from the other side, which has this export.
fn jump_to(side: Side, exported: Option<usize>) -> Jump
    ensures { result ≡ jump_to side exported }
{
    match exported {
        Some(index) => Jump::Goes(side, index),
        None => Jump::Missing,
    }
}

/// Where the chain is behind an import, which has this index.
fn jump_of(
    pair: &LinkedModules,
    space: IndexSpace,
    side: Side,
    index: usize,
    import: &Import,
) -> Jump
    ensures { result ≡ jump_of pair.now (space_of space) side index import.now }
{
    if is_from_other(side, import) {
        let other = other_side(side);
        jump_to(
            other,
            pair.exported_index(space, other, import.name.as_str()),
        )
    } else {
        Jump::Ends(End::HostImport(side, index))
    }
}

/// Where the chains are behind each import of a side.
fn side_jumps(
    alloc: Global,
    pair: &LinkedModules,
    space: IndexSpace,
    side: Side,
) -> Result<Vec<Jump>, NoMemory>
    ensures { IfOk result (λ jumps. jumps.items
        ≡ jumps_of pair.now (space_of space) side 0 (imports_in (space_of space) (module_of pair.now side))) }
{
    let mut jumps = Vec::new(alloc);
    'imports: for import in pair.module(side).imports.as_slice() {
        if space.has(import.kind) {
            let jump = jump_of(pair, space, side, jumps.len(), import);
            jumps.push(jump)?;
        }
    }
    Ok(jumps)
}

/// Where each chain is after its first jump and the jump from there.
fn joined(alloc: Global, firsts: &[Jump], seconds: &Jumps) -> Result<Vec<Jump>, NoMemory>
    ensures { IfOk result (λ jumps. jumps.items ≡ map (jump_then seconds.now) firsts.now) }
{
    let mut jumps = Vec::new(alloc);
    'firsts: for first in firsts {
        jumps.push(seconds.after(*first))?;
    }
    Ok(jumps)
}

impl Jumps {
    /// Where the chains are behind each import of both sides.
    pub(crate) fn of_imports(
        alloc: Global,
        pair: &LinkedModules,
        space: IndexSpace,
    ) -> Result<Jumps, NoMemory>
        ensures { IfOk result (λ jumps. AreFirstJumps pair.now (space_of space) jumps) }
    {
        let left = side_jumps(alloc, pair, space, Side::Left)?;
        let right = side_jumps(alloc, pair, space, Side::Right)?;
        Ok(Jumps { left, right })
    }

    /// Where the chains from all imports of a side are.
    fn on(&self, side: Side) -> &[Jump]
        ensures { result.now ≡ side_jumps self.now side }
    {
        match side {
            Side::Left => self.left.as_slice(),
            Side::Right => self.right.as_slice(),
        }
    }

    /// Where the chain from an index is.
    pub(crate) fn at(&self, side: Side, index: usize) -> Jump
        ensures { result ≡ jump_at self.now side index }
    {
        match self.on(side).get(index) {
            Some(jump) => *jump,
            None => Jump::Ends(End::Defined(side, index)),
        }
    }

    /// Where a chain is after a jump and the jump from there.
    fn after(&self, first: Jump) -> Jump
        ensures { result ≡ jump_then self.now first }
    {
        match first {
            Jump::Goes(side, index) => self.at(side, index),
            Jump::Ends(_) | Jump::Missing => first,
        }
    }

    /// The same jumps.
    pub(crate) fn copy(&self, alloc: Global) -> Result<Jumps, NoMemory>
        ensures { IfOk result (λ jumps. AreSame self.now jumps) }
    {
        let mut left = Vec::new(alloc);
        let mut right = Vec::new(alloc);
        left.extend_from_slice(self.left.as_slice())?;
        right.extend_from_slice(self.right.as_slice())?;
        Ok(Jumps { left, right })
    }

    /// Where the chains are after these jumps and those of `seconds` from there.
    pub(crate) fn then(&self, alloc: Global, seconds: &Jumps) -> Result<Jumps, NoMemory>
        ensures { IfOk result (λ jumps. AreJoined self.now seconds.now jumps) }
    {
        let left = joined(alloc, self.left.as_slice(), seconds)?;
        let right = joined(alloc, self.right.as_slice(), seconds)?;
        Ok(Jumps { left, right })
    }
}
