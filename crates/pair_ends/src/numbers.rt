// The numbers of functions and globals in the run of a pair.

ghost use Rattle.std.specs.Prelude.{◌≡◌, ◌+◌, ◌-◌, ◌<◌, ◌^◌, IfOk, IfSome, length, map, nat_le};
ghost use Rattle.instance_spec.specs.ForeignRuns.{count_from};
ghost use Rattle.instance_spec.specs.declared.sides.Side.TheVariants.{Left as OnLeft, Right as OnRight};
ghost use Rattle.pair_spec.specs.Pairs.{defined_in, module_of};
ghost use Rattle.pair_spec.specs.Numbers.{count_in, numbers_in as numbers_of_side};
ghost use Rattle.pair_ends.specs.Spaces.{space as space_of};
ghost use Rattle.pair_ends.specs.Ends.{AreEnds, end_at};
ghost use Rattle.pair_ends.specs.Numbers.{AreCountable, AreCounts, AreFew, AreHosts, counted_before, counted_defined, host_weight, hosts_at, hosts_on, number_by, number_if};

use crate::ends::Ends;
use crate::jumps::End;
use crate::modules::{LinkedModules, is_from_other};
use crate::spaces::IndexSpace;
use base::NoMemory;
use instance_spec::Side;
use std::alloc::Global;
use wasm_syntax::{Import, Module};

/// The numbers of each side's indices, in order.
#[derive(Drop)]
pub struct Numbers {
    pub left: Vec<u32>,
    pub right: Vec<u32>,
}

/// How many of a side's imports in a space are the host's: of those before each, and of all.
#[derive(Drop)]
pub(crate) struct Hosts {
    before: Vec<usize>,
    count: usize,
}

/// What is counted for the numbers in a space: the host's imports of each side, and the definitions of the left one.
#[derive(Drop)]
pub(crate) struct Counts {
    left: Hosts,
    right: Hosts,
    left_defined: usize,
}

/// The numbers of both sides' indices in a space. Takes time in the numbers of imports and definitions.
///
/// # Errors
///
/// `NoMemory` if an allocation failed.
pub fn numbers_in(
    alloc: Global,
    pair: &LinkedModules,
    space: IndexSpace,
    ends: &Ends,
) -> Result<Numbers, NoMemory>
    requires countable { AreCountable pair.now (space_of space) }
    requires ends { AreEnds pair.now (space_of space) ends.now }
    ensures left { IfOk result (λ numbers. numbers.left.items ≡ numbers_of_side pair.now (space_of space) OnLeft) }
    ensures right { IfOk result (λ numbers. numbers.right.items ≡ numbers_of_side pair.now (space_of space) OnRight) }
{
    let counts = Counts::of(alloc, pair, space)?;
    let left = side_numbers(alloc, pair, space, ends, &counts, Side::Left)?;
    let right = side_numbers(alloc, pair, space, ends, &counts, Side::Right)?;
    Ok(Numbers { left, right })
}

/// The numbers of a side's indices in a space.
fn side_numbers(
    alloc: Global,
    pair: &LinkedModules,
    space: IndexSpace,
    ends: &Ends,
    counts: &Counts,
    side: Side,
) -> Result<Vec<u32>, NoMemory>
    requires countable { AreCountable pair.now (space_of space) }
    requires ends { AreEnds pair.now (space_of space) ends.now }
    requires counts { AreCounts pair.now (space_of space) counts.now }
    ensures { IfOk result (λ numbers. numbers.items ≡ numbers_of_side pair.now (space_of space) side) }
{
    let imports = counts.on(side).len();
    let defined = defined_in(space, pair.module(side));
    numbers_of_ends(alloc, ends, counts, side, imports + defined)
}

/// The numbers of the ends of chains from the first indices of a side.
fn numbers_of_ends(
    alloc: Global,
    ends: &Ends,
    counts: &Counts,
    side: Side,
    size: usize,
) -> Result<Vec<u32>, NoMemory>
    requires { AreFew counts.now ends.now side size }
    ensures { IfOk result (λ numbers. numbers.items
        ≡ map (λ index. number_if counts.now (end_at ends.now side index)) (count_from 0 size)) }
{
    let mut numbers = Vec::new(alloc);
    'indices: for index in 0..size {
        numbers.push(counts.number_if(ends.at(side, index)))?;
    }
    Ok(numbers)
}

/// Whether the run of a pair has at most one of a space.
pub(crate) fn has_one(
    alloc: Global,
    pair: &LinkedModules,
    space: IndexSpace,
) -> Result<bool, NoMemory>
    ensures { IfOk result (λ one. one ≡ nat_le (count_in pair.now (space_of space)) 1) }
{
    let counts = Counts::of(alloc, pair, space)?;
    let defined = defined_in(space, pair.module(Side::Right));
    Ok(at_most_one(
        counts.left.count,
        counts.right.count,
        counts.left_defined,
        defined,
    ))
}

/// Whether four numbers are one in all, or none.
fn at_most_one(a: usize, b: usize, c: usize, d: usize) -> bool
    ensures { result ≡ nat_le (a + b + c + d) 1 }
{
    a <= 1 && b <= 1 && c <= 1 && d <= 1 && a + b + c + d <= 1
}

/// The number of definitions of a module in a space.
pub(crate) fn defined_in(space: IndexSpace, module: &Module) -> usize
    ensures { result ≡ defined_in (space_of space) «module».now }
{
    match space {
        IndexSpace::Funcs => module.funcs.as_slice().len(),
        IndexSpace::Tables => module.tables.as_slice().len(),
        IndexSpace::Memories => module.memories.as_slice().len(),
        IndexSpace::Globals => module.globals.as_slice().len(),
    }
}

/// 1 if an import of a side is the host's.
fn host_weight(side: Side, import: &Import) -> usize
    ensures { result ≡ host_weight side import.now }
{
    if is_from_other(side, import) { 0 } else { 1 }
}

impl Hosts {
    /// The host's imports of a side in a space.
    fn of(
        alloc: Global,
        pair: &LinkedModules,
        space: IndexSpace,
        side: Side,
    ) -> Result<Hosts, NoMemory>
        ensures { IfOk result (λ hosts. AreHosts pair.now (space_of space) side hosts) }
    {
        let mut before = Vec::new(alloc);
        let mut count = 0;
        'imports: for import in pair.module(side).imports.as_slice() {
            if space.has(import.kind) {
                before.push(count)?;
                count += host_weight(side, import);
            }
        }
        Ok(Hosts { before, count })
    }

    /// The number of the side's imports in the space.
    fn len(&self) -> usize
        ensures { result ≡ length self.now.before.items }
    {
        self.before.len()
    }

    /// How many come before an index.
    fn at(&self, index: usize) -> usize
        ensures { result ≡ hosts_at self.now index }
    {
        match self.before.get(index) {
            Some(count) => *count,
            None => self.count,
        }
    }
}

impl Counts {
    /// What is counted for the numbers in a space.
    pub(crate) fn of(
        alloc: Global,
        pair: &LinkedModules,
        space: IndexSpace,
    ) -> Result<Counts, NoMemory>
        ensures { IfOk result (λ counts. AreCounts pair.now (space_of space) counts) }
    {
        let left = Hosts::of(alloc, pair, space, Side::Left)?;
        let right = Hosts::of(alloc, pair, space, Side::Right)?;
        let left_defined = defined_in(space, pair.module(Side::Left));
        Ok(Counts {
            left,
            right,
            left_defined,
        })
    }

    /// The host's imports of a side.
    fn on(&self, side: Side) -> &Hosts
        ensures { result.now ≡ hosts_on self.now side }
    {
        match side {
            Side::Left => &self.left,
            Side::Right => &self.right,
        }
    }

    /// How many of the host's imports come before those of a side.
    fn hosts_before(&self, side: Side) -> usize
        ensures { result ≡ counted_before self.now side }
    {
        match side {
            Side::Left => 0,
            Side::Right => self.left.count,
        }
    }

    /// How many of the host's imports and of the definitions come before the definitions of a side.
    fn defined_before(&self, side: Side) -> usize
        requires { counted_defined self.now side < 2 ^ 32 }
        ensures { result ≡ counted_defined self.now side }
    {
        match side {
            Side::Left => self.left.count + self.right.count,
            Side::Right => self.left.count + self.right.count + self.left_defined,
        }
    }

    /// The number of an end.
    fn number(&self, end: End) -> u32
        requires { number_by self.now «end» < 2 ^ 32 }
        ensures { result ≡ number_by self.now «end» }
    {
        match end {
            End::HostImport(side, index) => self.host_number(side, index),
            End::Defined(side, index) => self.defined_number(side, index),
        }
    }

    /// The number of an import of the host.
    fn host_number(&self, side: Side, index: usize) -> u32
        requires { counted_before self.now side + hosts_at (hosts_on self.now side) index < 2 ^ 32 }
        ensures { result ≡ counted_before self.now side + hosts_at (hosts_on self.now side) index }
    {
        (self.hosts_before(side) + self.on(side).at(index)) as u32
    }

    /// The number of a definition.
    fn defined_number(&self, side: Side, index: usize) -> u32
        requires { counted_defined self.now side + (index - length (hosts_on self.now side).before.items) < 2 ^ 32 }
        ensures { result ≡ counted_defined self.now side + (index - length (hosts_on self.now side).before.items) }
    {
        (self.defined_before(side) + index.saturating_sub(self.on(side).len())) as u32
    }

    /// The number of an end, or one that nothing has if there is no end.
    fn number_if(&self, end: Option<End>) -> u32
        requires { IfSome «end» (λ e. number_by self.now e < 2 ^ 32) }
        ensures { result ≡ number_if self.now «end» }
    {
        match end {
            Some(end) => self.number(end),
            None => u32::MAX,
        }
    }
}
