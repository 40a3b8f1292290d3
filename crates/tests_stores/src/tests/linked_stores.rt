//! Modules that link and that do not, by the rules of the standard.

ghost use Rattle.std.specs.Prelude.{◌≡◌, ◌<◌, ◌^◌, [], ◌∷◌, IfOk, None, length};
ghost use Rattle.wasm_syntax.specs.Index.{func_indices};
ghost use Rattle.wasm_syntax.specs.Profile.{IsSupported};
ghost use Rattle.host_script.specs.Fits.{Fits};

use host_link::{LinkFault, link};
use host_script::Script;
use std::alloc::Global;
use std::test::Fail;
use wasm_store::Store;
use wasm_syntax::{DataSeg, Import, ImportKind, Instr, Limits, List, Module, Name, Val, ValType};
use wasm_validate::validate;

fn body(alloc: Global, offset: u64) -> Result<List<Instr>, LinkFault> {
    let mut instrs = Vec::new(alloc);
    let value = Val {
        ty: ValType::I32,
        bits: offset,
    };
    for instr in [Instr::Const(value), Instr::End] {
        if instrs.push(instr).is_err() {
            return Err(LinkFault::Memory);
        }
    }
    Ok(List::from_vec(instrs))
}

fn data(alloc: Global, offset: u64, bytes: &[u8]) -> Result<DataSeg, LinkFault> {
    let Ok(bytes) = Vec::from_slice(alloc, bytes) else {
        return Err(LinkFault::Memory);
    };
    Ok(DataSeg {
        memory: 0,
        offset: body(alloc, offset)?,
        bytes: List::from_vec(bytes),
    })
}

fn segments(alloc: Global, first: DataSeg, second: DataSeg) -> Result<List<DataSeg>, LinkFault> {
    let mut datas = Vec::new(alloc);
    if datas.push(first).is_err() || datas.push(second).is_err() {
        return Err(LinkFault::Memory);
    }
    Ok(List::from_vec(datas))
}

/// A list of these limits alone.
fn one_of(alloc: Global, limits: Limits) -> Result<List<Limits>, LinkFault>
    ensures { IfOk result (λ list. list ≡ limits ∷ []) }
{
    match vec![in alloc; limits] {
        Ok(list) => Ok(List::from_vec(list)),
        Err(_) => Err(LinkFault::Memory),
    }
}

/// A module of these parts alone.
fn module_of(
    alloc: Global,
    imports: List<Import>,
    tables: List<Limits>,
    memories: List<Limits>,
    datas: List<DataSeg>,
) -> Module
    ensures { result ≡ record {
      types = [];
      imports = imports;
      funcs = [];
      tables = tables;
      memories = memories;
      globals = [];
      exports = [];
      start = None;
      elems = [];
      datas = datas;
      customs = [];
    } }
{
    Module {
        types: List::new(alloc),
        imports,
        funcs: List::new(alloc),
        tables,
        memories,
        globals: List::new(alloc),
        exports: List::new(alloc),
        start: None,
        elems: List::new(alloc),
        datas,
        customs: List::new(alloc),
    }
}

/// The store of a module under a script that supplies at most a table.
fn linked(alloc: Global, module: Module, table: Option<Limits>) -> Result<Store, LinkFault>
    requires counted { length (func_indices «module») < 2 ^ 32 }
    requires supported { IsSupported «module» }
    requires fits { Fits «module» (record {
      memory = None;
      table = table;
      globals = [];
      imports = [];
      main = [];
    }) }
{
    let script = Script {
        memory: None,
        table,
        globals: List::new(alloc),
        imports: List::new(alloc),
        main: List::new(alloc),
    };
    let Ok(checked) = validate(alloc, module) else {
        return Err(LinkFault::Memory);
    };
    link(alloc, &checked, &script)
}

/// The last word of the memory of a module with a page and with two data segments, under a script
/// that supplies nothing.
fn last_word(alloc: Global, first: DataSeg, second: DataSeg) -> Result<u64, LinkFault> {
    let memories = one_of(alloc, Limits { min: 1, max: None })?;
    let datas = segments(alloc, first, second)?;
    let module = module_of(alloc, List::new(alloc), List::new(alloc), memories, datas);
    let store = linked(alloc, module, None)?;
    match store.load_at(65_532, 4) {
        Ok(word) => Ok(word),
        Err(_) => Err(LinkFault::Memory),
    }
}

/// The last word of the memory of a module with two data segments of these offsets and bytes.
fn last_word_of(
    alloc: Global,
    first: (u64, &[u8]),
    second: (u64, &[u8]),
) -> Result<u64, LinkFault> {
    let first = data(alloc, first.0, first.1)?;
    let second = data(alloc, second.0, second.1)?;
    last_word(alloc, first, second)
}

#[test]
fn segments_are_written_in_order_up_to_the_last_byte(rt: HostRuntime) -> Result<(), Fail> {
    let word = last_word_of(rt.alloc(), (65_532, &[1, 2, 3, 4]), (65_533, &[7, 8]));
    assert!(rt; word == Ok(0x0408_0701));
    Ok(())
}

#[test]
fn the_first_segment_past_the_end_is_named(rt: HostRuntime) -> Result<(), Fail> {
    let word = last_word_of(rt.alloc(), (65_536, &[]), (65_533, &[7, 8, 9, 10]));
    assert!(rt; word == Err(LinkFault::Segment { number: 1 }));
    Ok(())
}

/// The store of a module that declares a table of two entries, which may not grow to four.
fn declared_table(alloc: Global) -> Result<Store, LinkFault> {
    let limits = Limits {
        min: 2,
        max: Some(3),
    };
    let tables = one_of(alloc, limits)?;
    let none = List::new(alloc);
    let module = module_of(alloc, List::new(alloc), tables, none, List::new(alloc));
    linked(alloc, module, None)
}

/// The store of a module that imports a table of one entry, which may not grow to ten, under a
/// script that supplies one of two entries, which may not grow to four.
fn supplied_table(alloc: Global) -> Result<Store, LinkFault> {
    let import = Import {
        module: Name::from_string(String::new(alloc)),
        name: Name::from_string(String::new(alloc)),
        kind: ImportKind::Table(Limits {
            min: 1,
            max: Some(9),
        }),
    };
    let Ok(imports) = vec![in alloc; import] else {
        return Err(LinkFault::Memory);
    };
    let imports = List::from_vec(imports);
    let none = List::new(alloc);
    let module = module_of(alloc, imports, List::new(alloc), none, List::new(alloc));
    let supplied = Limits {
        min: 2,
        max: Some(3),
    };
    linked(alloc, module, Some(supplied))
}

/// The size of a table before it grew by an entry, 9,999 if it did not.
fn grown(store: &mut Store) -> u32 {
    if !store.has_table() {
        return 9_999;
    }
    match store.grow_table(1) {
        Ok(Some(size)) => size,
        _ => 9_999,
    }
}

/// Whether the table of a store grows from two entries to three and no further.
fn grows_to_three(linked: Result<Store, LinkFault>) -> bool {
    match linked {
        Ok(mut store) => grown(&mut store) == 2 && grown(&mut store) == 9_999,
        Err(_) => false,
    }
}

#[test]
fn a_table_grows_to_its_declared_maximum(rt: HostRuntime) -> Result<(), Fail> {
    assert!(rt; grows_to_three(declared_table(rt.alloc())));
    Ok(())
}

#[test]
fn a_supplied_table_grows_to_its_own_maximum(rt: HostRuntime) -> Result<(), Fail> {
    assert!(rt; grows_to_three(supplied_table(rt.alloc())));
    Ok(())
}
