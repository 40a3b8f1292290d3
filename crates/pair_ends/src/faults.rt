// Why two modules do not link.

ghost use Rattle.std.specs.Prelude.{◌≡◌, ◌+◌, ◌<◌, ◌^◌, IfOk, length, nat_le, option_map};
ghost use Rattle.std.specs.Option.{option_or};
ghost use Rattle.instance_spec.specs.declared.sides.Side.TheVariants.{Left as OnLeft, Right as OnRight};
ghost use Rattle.pair_spec.specs.declared.faults.PairFault.TheVariants.{TwoMemories, TwoStarts, TwoTables};
ghost use Rattle.pair_spec.specs.Pairs.{Memories, Tables, module_of};
ghost use Rattle.pair_spec.specs.Chains.{end_index};
ghost use Rattle.pair_spec.specs.Numbers.{count_in};
ghost use Rattle.pair_spec.specs.Faults.{does_match as is_match, fault_by_end as fault_of_chain, fault_unless, first_import_fault as first_of_side, first_pair_fault, has_constant as is_constant_if_fixed, has_one_start};
ghost use Rattle.pair_ends.specs.Ends.{AreAllEnds, chain_end};
ghost use Rattle.pair_ends.specs.Faults.{ends_constant, fault_at, first_from, no_seen};

use crate::ends::PairEnds;
use crate::jumps::End;
use crate::matches::{global_matches, is_signature, limits_match};
use crate::modules::{LinkedModules, is_from_other};
use crate::numbers::has_one;
use crate::seen::Seen;
use crate::spaces::{IndexSpace, space_of};
use crate::types::PairTypes;
use base::NoMemory;
use instance_spec::Side;
use pair_spec::PairFault;
use std::alloc::Global;
use wasm_syntax::{Import, ImportKind};

/// The first fault of a pair, if it has one. Takes time in the numbers of imports and definitions.
///
/// # Errors
///
/// `NoMemory` if an allocation failed.
pub fn first_fault(
    alloc: Global,
    pair: &LinkedModules,
    ends: &PairEnds,
) -> Result<Option<PairFault>, NoMemory>
    requires ends { AreAllEnds pair.now ends.now }
    requires short { length pair.now.left.imports + length pair.now.right.imports < 2 ^ 32 }
    ensures { IfOk result (λ fault. fault ≡ first_pair_fault pair.now) }
{
    let types = PairTypes::of(alloc, pair.module(Side::Left), pair.module(Side::Right))?;
    match fault_of_imports(ends, &types) {
        Some(fault) => Ok(Some(fault)),
        None => joint_fault(alloc, pair),
    }
}

/// The first fault of imports.
fn fault_of_imports(ends: &PairEnds, types: &PairTypes) -> Option<PairFault>
    requires ends { AreAllEnds types.now ends.now }
    requires short { length types.now.left.imports + length types.now.right.imports < 2 ^ 32 }
    ensures { result ≡ option_or (first_of_side types.now OnLeft 0 types.now.left.imports)
        (first_of_side types.now OnRight 0 types.now.right.imports) }
{
    match first_of_imports(ends, types, Side::Left) {
        Some(fault) => Some(fault),
        None => first_of_imports(ends, types, Side::Right),
    }
}

/// The first fault of what the linked module has of both modules.
fn joint_fault(alloc: Global, pair: &LinkedModules) -> Result<Option<PairFault>, NoMemory>
    ensures { IfOk result (λ fault. fault ≡ option_or (fault_unless (nat_le (count_in pair.now Memories) 1) TwoMemories)
        (option_or (fault_unless (nat_le (count_in pair.now Tables) 1) TwoTables)
        (fault_unless (has_one_start pair.now) TwoStarts))) }
{
    if !has_one(alloc, pair, IndexSpace::Memories)? {
        return Ok(Some(PairFault::TwoMemories));
    }
    if !has_one(alloc, pair, IndexSpace::Tables)? {
        return Ok(Some(PairFault::TwoTables));
    }
    Ok(start_fault(pair))
}

/// The fault that both modules have a start function.
fn start_fault(pair: &LinkedModules) -> Option<PairFault>
    ensures { result ≡ fault_unless (has_one_start pair.now) TwoStarts }
{
    if pair.module(Side::Left).start.is_some() && pair.module(Side::Right).start.is_some() {
        Some(PairFault::TwoStarts)
    } else {
        None
    }
}

/// The first fault of a side's imports.
fn first_of_imports(ends: &PairEnds, types: &PairTypes, side: Side) -> Option<PairFault>
    requires ends { AreAllEnds types.now ends.now }
    requires short { length (module_of types.now side).imports < 2 ^ 32 }
    ensures { result ≡ first_of_side types.now side 0 (module_of types.now side).imports }
{
    first_from(ends, types, side)
}

/// The first fault of a side's imports, whose indices are counted.
fn first_from(ends: &PairEnds, types: &PairTypes, side: Side) -> Option<PairFault>
    requires ends { AreAllEnds types.now ends.now }
    requires short { length (module_of types.now side).imports < 2 ^ 32 }
    ensures { result ≡ first_from types.now side 0 no_seen (module_of types.now side).imports }
{
    let mut seen = Seen::new();
    let imports = types.module(side).imports.as_slice();
    'imports: for (place, import) in imports.iter().enumerate() {
        let space = space_of(import.kind);
        let index = seen.on(space);
        if let Some(fault) = import_fault(ends, types, side, place as u32, index, import) {
            return Some(fault);
        }
        seen = seen.with(space);
    }
    None
}

/// The fault of the import at a place, which has this index.
fn import_fault(
    ends: &PairEnds,
    types: &PairTypes,
    side: Side,
    place: u32,
    index: usize,
    import: &Import,
) -> Option<PairFault>
    requires { AreAllEnds types.now ends.now }
    ensures { result ≡ fault_at types.now side place index import.now }
{
    if !is_from_other(side, import) {
        return None;
    }
    let end = ends.on(space_of(import.kind)).at(side, index);
    fault_by_end(types, side, place, import.kind, end)
}

/// The fault of an import from the other side, by the end of its chain.
fn fault_by_end(
    types: &PairTypes,
    side: Side,
    place: u32,
    kind: ImportKind,
    end: Option<End>,
) -> Option<PairFault>
    ensures { result ≡ fault_of_chain types.now side place kind (option_map chain_end «end») }
{
    let Some(end) = end else {
        return Some(PairFault::Unresolved {
            side,
            import: place,
        });
    };
    if !has_constant(types, kind, end) {
        return Some(PairFault::Unresolved {
            side,
            import: place,
        });
    }
    if !does_match(types, side, kind, end) {
        return Some(PairFault::Mismatch {
            side,
            import: place,
        });
    }
    None
}

/// Whether an import, if it is an immutable global that a side defines, is initialised with one constant.
fn has_constant(types: &PairTypes, kind: ImportKind, end: End) -> bool
    ensures { result ≡ is_constant_if_fixed types.now kind (chain_end «end») }
{
    match kind {
        ImportKind::Global(ty) => ty.mutable || is_constant(types, end),
        _ => true,
    }
}

/// Whether a global, if a side defines it, is initialised with one constant.
fn is_constant(types: &PairTypes, end: End) -> bool
    ensures { result ≡ ends_constant types.now «end» }
{
    match end {
        End::Defined(side, index) => types.on(side).is_constant(index),
        End::HostImport(..) => true,
    }
}

/// Whether the end of an import's chain has the type of the import, or has limits that match those of the import.
fn does_match(types: &PairTypes, side: Side, kind: ImportKind, end: End) -> bool
    ensures { result ≡ is_match types.now side kind (chain_end «end») }
{
    let given = types.of_end(end);
    let index = index_of(end);
    match kind {
        ImportKind::Func(ty) => is_signature(given.func_type(index), types.on(side).type_at(ty)),
        ImportKind::Table(limits) => limits_match(given.table(index), limits),
        ImportKind::Memory(limits) => limits_match(given.memory(index), limits),
        ImportKind::Global(ty) => global_matches(given.global(index), ty),
    }
}

/// The index of an end in its module.
fn index_of(end: End) -> usize
    ensures { result ≡ end_index (chain_end «end») }
{
    match end {
        End::Defined(_, index) | End::HostImport(_, index) => index,
    }
}
