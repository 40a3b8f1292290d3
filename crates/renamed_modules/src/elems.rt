// Element segments with the numbers of their functions.

ghost use Rattle.std.specs.Prelude.{◌≡◌, map, IfOk};
ghost use Rattle.instance_spec.specs.Widened.{renamed_elem};

use crate::numbering::Numbering;
use base::NoMemory;
use std::alloc::Global;
use wasm_syntax::{ElemSeg, ElemSegs, Indices, List};

/// Element segments with the numbers of their functions.
///
/// # Errors
///
/// `NoMemory` if an allocation failed.
pub fn renamed_elems<N: Numbering>(
    alloc: Global,
    numbering: &N,
    elems: &[ElemSeg],
) -> Result<ElemSegs, NoMemory>
    ensures { IfOk result (λ list. list ≡ map (renamed_elem (N.instance numbering.now)) elems.now) }
{
    let mut list = Vec::with_capacity(alloc, elems.len())?;
    'elems: for elem in elems {
        list.push(renamed_elem(alloc, numbering, elem)?)?;
    }
    Ok(List::from_vec(list))
}

/// An element segment with the numbers of its functions.
fn renamed_elem<N: Numbering>(
    alloc: Global,
    numbering: &N,
    elem: &ElemSeg,
) -> Result<ElemSeg, NoMemory>
    ensures { IfOk result (λ made. made ≡ renamed_elem (N.instance numbering.now) elem.now) }
{
    match elem {
        ElemSeg::Active {
            table,
            offset,
            funcs,
        } => {
            let offset = offset.clone()?;
            let funcs = numbers_of(alloc, numbering, funcs.as_slice())?;
            Ok(ElemSeg::Active {
                table: *table,
                offset,
                funcs,
            })
        }
        ElemSeg::Declared { funcs } => {
            let funcs = numbers_of(alloc, numbering, funcs.as_slice())?;
            Ok(ElemSeg::Declared { funcs })
        }
    }
}

/// The numbers of functions.
///
/// # Errors
///
/// `NoMemory` if an allocation failed.
pub fn numbers_of<N: Numbering>(
    alloc: Global,
    numbering: &N,
    funcs: &[u32],
) -> Result<Indices, NoMemory>
    ensures { IfOk result (λ list. list ≡ map (N.instance numbering.now).funcs funcs.now) }
{
    let mut list = Vec::with_capacity(alloc, funcs.len())?;
    'funcs: for func in funcs {
        list.push(numbering.func(*func))?;
    }
    Ok(List::from_vec(list))
}
