// The element and data segments of a linked module.

ghost use Rattle.std.specs.Prelude.{◌≡◌, ◌++◌, map, IfOk};
ghost use Rattle.linked_pair.specs.Parts.{data_by, elem_by};

use crate::constants::linked_constant;
use crate::numbers::SideNumbers;
use base::NoMemory;
use renamed_modules::numbers_of;
use std::alloc::Global;
use wasm_syntax::{DataSeg, DataSegs, ElemSeg, ElemSegs, List};

/// Element segments, and after them those of a side.
pub(crate) fn with_linked_elems(
    alloc: Global,
    numbers: &SideNumbers,
    before: ElemSegs,
    elems: &[ElemSeg],
) -> Result<ElemSegs, NoMemory>
    ensures { IfOk result (λ list. list ≡ before ++ map (elem_by numbers.now) elems.now) }
{
    let mut list = before.into_vec();
    list.reserve(elems.len())?;
    'elems: for elem in elems {
        list.push(linked_elem(alloc, numbers, elem)?)?;
    }
    Ok(List::from_vec(list))
}

/// An element segment of a side.
fn linked_elem(alloc: Global, numbers: &SideNumbers, elem: &ElemSeg) -> Result<ElemSeg, NoMemory>
    ensures { IfOk result (λ made. made ≡ elem_by numbers.now elem.now) }
{
    match elem {
        ElemSeg::Active {
            table,
            offset,
            funcs,
        } => {
            let offset = linked_constant(alloc, numbers, offset)?;
            let funcs = numbers_of(alloc, numbers, funcs.as_slice())?;
            Ok(ElemSeg::Active {
                table: *table,
                offset,
                funcs,
            })
        }
        ElemSeg::Declared { funcs } => {
            let funcs = numbers_of(alloc, numbers, funcs.as_slice())?;
            Ok(ElemSeg::Declared { funcs })
        }
    }
}

/// Data segments, and after them those of a side.
pub(crate) fn with_linked_datas(
    alloc: Global,
    numbers: &SideNumbers,
    before: DataSegs,
    datas: &[DataSeg],
) -> Result<DataSegs, NoMemory>
    ensures { IfOk result (λ list. list ≡ before ++ map (data_by numbers.now) datas.now) }
{
    let mut list = before.into_vec();
    list.reserve(datas.len())?;
    'datas: for segment in datas {
        list.push(linked_data(alloc, numbers, segment)?)?;
    }
    Ok(List::from_vec(list))
}

/// A data segment of a side.
fn linked_data(alloc: Global, numbers: &SideNumbers, segment: &DataSeg) -> Result<DataSeg, NoMemory>
    ensures { IfOk result (λ made. made ≡ data_by numbers.now segment.now) }
{
    let offset = linked_constant(alloc, numbers, &segment.offset)?;
    let bytes = segment.bytes.clone()?;
    Ok(DataSeg {
        memory: segment.memory,
        offset,
        bytes,
    })
}
