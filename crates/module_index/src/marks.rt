// The functions that bodies may refer to (Core 2.0, 3.4.10).

ghost use Rattle.std.specs.Prelude.{◌≡◌, ◌∷◌, [], filter_map, flat_map, IfOk};
ghost use Rattle.std.specs.List.{cons_option};
ghost use Rattle.wasm_syntax.specs.Validity.{declared_funcs, elem_funcs, exported_func};
ghost use Rattle.module_index.specs.Marks.{AreMarks, MarksMore};

use base::NoMemory;
use std::alloc::Global;
use wasm_syntax::{ElemSeg, Export, ExportKind, Module};

/// Which of a given number of functions are in an element segment or an export.
pub(crate) fn marks_of(alloc: Global, module: &Module, count: usize) -> Result<Vec<bool>, NoMemory>
    ensures { IfOk result (λ marks. AreMarks marks.items count (declared_funcs «module».now)) }
{
    let mut marks = vec![in alloc; false; count]?;
    mark_elems(&mut marks, module.elems.as_slice());
    mark_exports(&mut marks, module.exports.as_slice());
    Ok(marks)
}

/// Marks the functions of each segment.
fn mark_elems(marks: &mut Vec<bool>, elems: &[ElemSeg])
    ensures { MarksMore marks.old.items marks.new.items (flat_map elem_funcs elems.now) }
{
    'elems: for elem in elems {
        mark_all(marks, funcs_of_elem(elem));
    }
}

/// The functions of a segment.
fn funcs_of_elem(elem: &ElemSeg) -> &[u32]
    ensures { result.now ≡ elem_funcs elem.now }
{
    match elem {
        ElemSeg::Active { funcs, .. } | ElemSeg::Declared { funcs } => funcs.as_slice(),
    }
}

/// Marks the exported functions.
fn mark_exports(marks: &mut Vec<bool>, exports: &[Export])
    ensures { MarksMore marks.old.items marks.new.items (filter_map (λ e. exported_func e.kind) exports.now) }
{
    'exports: for export in exports {
        mark_some(marks, func_of_export(export.kind));
    }
}

/// The function that an export names, if it names one.
fn func_of_export(kind: ExportKind) -> Option<u32>
    ensures { result ≡ exported_func kind }
{
    match kind {
        ExportKind::Func(func) => Some(func),
        ExportKind::Table(_) | ExportKind::Memory(_) | ExportKind::Global(_) => None,
    }
}

/// Marks each of the functions.
fn mark_all(marks: &mut Vec<bool>, funcs: &[u32])
    ensures { MarksMore marks.old.items marks.new.items funcs.now }
{
    'funcs: for func in funcs {
        mark(marks, *func);
    }
}

/// Marks the function, if there is one.
fn mark_some(marks: &mut Vec<bool>, func: Option<u32>)
    ensures { MarksMore marks.old.items marks.new.items (cons_option func []) }
{
    if let Some(func) = func {
        mark(marks, func);
    }
}

/// Marks a function, if it exists.
fn mark(marks: &mut Vec<bool>, func: u32)
    ensures { MarksMore marks.old.items marks.new.items (func ∷ []) }
{
    let func = func as usize;
    if func < marks.len() {
        marks[func] = true;
    }
}
