// The segments of a replay module.

ghost use Rattle.std.specs.Prelude.{◌≡◌, ◌++◌, map, IfOk, OnOk};
ghost use Rattle.replay_module_spec.specs.Merge.{constant_data, constant_elem, declaration};
ghost use Rattle.module_merge.specs.Offsets.{HasElemOffset, HaveDataOffsets, HaveElemOffsets, IsOffset};

use crate::constants::constant_offset;
use base::NoMemory;
use std::alloc::Global;
use wasm_syntax::{DataSeg, DataSegs, ElemSeg, ElemSegs, Indices, List, Val};

/// The original's element segments, with their offsets' values, and one that declares functions, if there are
/// any.
pub(crate) fn merged_elems(
    alloc: Global,
    originals: ElemSegs,
    imported: &[Val],
    declared: Indices,
) -> Result<ElemSegs, NoMemory>
    requires { HaveElemOffsets imported.now originals }
    ensures { IfOk result (λ elems. elems
        ≡ map (constant_elem imported.now) originals ++ declaration declared) }
{
    let mut elems = constant_elems(alloc, originals, imported)?;
    push_declaration(&mut elems, declared)?;
    Ok(List::from_vec(elems))
}

/// Element segments with their offsets' values.
fn constant_elems(
    alloc: Global,
    originals: ElemSegs,
    imported: &[Val],
) -> Result<Vec<ElemSeg>, NoMemory>
    requires { HaveElemOffsets imported.now originals }
    ensures { IfOk result (λ elems. elems.items ≡ map (constant_elem imported.now) originals) }
{
    let mut elems = Vec::new(alloc);
    'segments: for segment in originals.into_vec() {
        elems.push(constant_elem(alloc, segment, imported)?)?;
    }
    Ok(elems)
}

/// An element segment with its offset's value.
fn constant_elem(alloc: Global, segment: ElemSeg, imported: &[Val]) -> Result<ElemSeg, NoMemory>
    requires { HasElemOffset imported.now segment }
    ensures { IfOk result (λ made. made ≡ constant_elem imported.now segment) }
{
    match segment {
        ElemSeg::Active {
            table,
            offset,
            funcs,
        } => {
            let offset = constant_offset(alloc, imported, offset)?;
            Ok(ElemSeg::Active {
                table,
                offset,
                funcs,
            })
        }
        ElemSeg::Declared { funcs } => Ok(ElemSeg::Declared { funcs }),
    }
}

/// Appends a segment that declares functions, if there are any.
fn push_declaration(elems: &mut Vec<ElemSeg>, declared: Indices) -> Result<(), NoMemory>
    ensures { OnOk result (elems.new.items ≡ elems.old.items ++ declaration declared) }
{
    if declared.as_slice().is_empty() {
        return Ok(());
    }
    elems.push(ElemSeg::Declared { funcs: declared })?;
    Ok(())
}

/// The original's data segments, with their offsets' values.
pub(crate) fn constant_datas(
    alloc: Global,
    originals: DataSegs,
    imported: &[Val],
) -> Result<DataSegs, NoMemory>
    requires { HaveDataOffsets imported.now originals }
    ensures { IfOk result (λ datas. datas ≡ map (constant_data imported.now) originals) }
{
    let mut datas = Vec::new(alloc);
    'segments: for segment in originals.into_vec() {
        datas.push(constant_data(alloc, segment, imported)?)?;
    }
    Ok(List::from_vec(datas))
}

/// A data segment with its offset's value.
fn constant_data(alloc: Global, segment: DataSeg, imported: &[Val]) -> Result<DataSeg, NoMemory>
    requires { IsOffset imported.now segment.offset }
    ensures { IfOk result (λ made. made ≡ constant_data imported.now segment) }
{
    let DataSeg {
        memory,
        offset,
        bytes,
    } = segment;
    let offset = constant_offset(alloc, imported, offset)?;
    Ok(DataSeg {
        memory,
        offset,
        bytes,
    })
}
