// Copies of modules and their parts.

ghost use Rattle.std.specs.Prelude.{◌≡◌, IfOk};

use crate::instructions::Instr;
use crate::lists::Item;
use crate::modules::{
    Custom, Customs, DataSeg, DataSegs, ElemSeg, ElemSegs, Export, Exports, Func, Funcs, Global,
    Globals, Import, Imports, LimitsList, Module, Run,
};
use crate::signatures::{FuncType, FuncTypes, Limits};
use crate::values::{Val, ValType};
use base::NoMemory;

impl Item for u8 {
    fn copy(&self) -> Result<u8, NoMemory> {
        Ok(*self)
    }
}

impl Item for u32 {
    fn copy(&self) -> Result<u32, NoMemory> {
        Ok(*self)
    }
}

impl Item for ValType {
    fn copy(&self) -> Result<ValType, NoMemory> {
        Ok(*self)
    }
}

impl Item for Val {
    fn copy(&self) -> Result<Val, NoMemory> {
        Ok(*self)
    }
}

impl Item for Limits {
    fn copy(&self) -> Result<Limits, NoMemory> {
        Ok(*self)
    }
}

impl Item for FuncType {
    fn copy(&self) -> Result<FuncType, NoMemory> {
        let params = self.params.clone()?;
        let results = self.results.clone()?;
        Ok(FuncType { params, results })
    }
}

impl Item for Instr {
    fn copy(&self) -> Result<Instr, NoMemory> {
        Ok(match self {
            Instr::Unreachable => Instr::Unreachable,
            Instr::Nop => Instr::Nop,
            Instr::Block(result) => Instr::Block(*result),
            Instr::Loop(result) => Instr::Loop(*result),
            Instr::If(result) => Instr::If(*result),
            Instr::Else => Instr::Else,
            Instr::End => Instr::End,
            Instr::Br(label) => Instr::Br(*label),
            Instr::BrIf(label) => Instr::BrIf(*label),
            Instr::BrTable(labels, default) => Instr::BrTable(labels.clone()?, *default),
            Instr::Return => Instr::Return,
            Instr::Call(func) => Instr::Call(*func),
            Instr::CallIndirect(ty) => Instr::CallIndirect(*ty),
            Instr::Drop => Instr::Drop,
            Instr::Select => Instr::Select,
            Instr::LocalGet(local) => Instr::LocalGet(*local),
            Instr::LocalSet(local) => Instr::LocalSet(*local),
            Instr::LocalTee(local) => Instr::LocalTee(*local),
            Instr::GlobalGet(global) => Instr::GlobalGet(*global),
            Instr::GlobalSet(global) => Instr::GlobalSet(*global),
            Instr::Load(access) => Instr::Load(*access),
            Instr::Store(access) => Instr::Store(*access),
            Instr::MemorySize => Instr::MemorySize,
            Instr::MemoryGrow => Instr::MemoryGrow,
            Instr::MemoryCopy => Instr::MemoryCopy,
            Instr::MemoryFill => Instr::MemoryFill,
            Instr::Const(value) => Instr::Const(*value),
            Instr::Numeric(op) => Instr::Numeric(*op),
            Instr::RefNull => Instr::RefNull,
            Instr::RefFunc(func) => Instr::RefFunc(*func),
            Instr::TableSet(table) => Instr::TableSet(*table),
            Instr::TableGrow(table) => Instr::TableGrow(*table),
            Instr::TableSize(table) => Instr::TableSize(*table),
        })
    }
}

impl Item for Import {
    fn copy(&self) -> Result<Import, NoMemory> {
        let module = self.module.clone()?;
        let name = self.name.clone()?;
        Ok(Import {
            module,
            name,
            kind: self.kind,
        })
    }
}

impl Item for Export {
    fn copy(&self) -> Result<Export, NoMemory> {
        let name = self.name.clone()?;
        Ok(Export {
            name,
            kind: self.kind,
        })
    }
}

impl Item for Func {
    fn copy(&self) -> Result<Func, NoMemory> {
        let locals = self.locals.clone()?;
        let body = self.body.clone()?;
        Ok(Func {
            ty: self.ty,
            locals,
            body,
        })
    }
}

impl Item for Global {
    fn copy(&self) -> Result<Global, NoMemory> {
        let init = self.init.clone()?;
        Ok(Global { ty: self.ty, init })
    }
}

impl Item for ElemSeg {
    fn copy(&self) -> Result<ElemSeg, NoMemory> {
        match self {
            ElemSeg::Active {
                table,
                offset,
                funcs,
            } => {
                let offset = offset.clone()?;
                let funcs = funcs.clone()?;
                Ok(ElemSeg::Active {
                    table: *table,
                    offset,
                    funcs,
                })
            }
            ElemSeg::Declared { funcs } => {
                let funcs = funcs.clone()?;
                Ok(ElemSeg::Declared { funcs })
            }
        }
    }
}

impl Item for DataSeg {
    fn copy(&self) -> Result<DataSeg, NoMemory> {
        let offset = self.offset.clone()?;
        let bytes = self.bytes.clone()?;
        Ok(DataSeg {
            memory: self.memory,
            offset,
            bytes,
        })
    }
}

impl Item for Custom {
    fn copy(&self) -> Result<Custom, NoMemory> {
        let name = self.name.clone()?;
        let bytes = self.bytes.clone()?;
        Ok(Custom { name, bytes })
    }
}

/// The functions of a copy, with what they refer to by index.
#[derive(Drop)]
struct CodeParts {
    types: FuncTypes,
    imports: Imports,
    funcs: Funcs,
}

/// The tables, memories and globals of a copy, and what it exports.
#[derive(Drop)]
struct StoreParts {
    tables: LimitsList,
    memories: LimitsList,
    globals: Globals,
    exports: Exports,
}

/// The segments of a copy, and its custom sections.
#[derive(Drop)]
struct SegmentParts {
    elems: ElemSegs,
    datas: DataSegs,
    customs: Customs,
}

impl Module {
    /// An equal module.
    ///
    /// # Errors
    ///
    /// When memory runs out.
    pub fn clone(&self) -> Result<Module, NoMemory>
        ensures { IfOk result (λ copy. copy ≡ self.now) }
    {
        let code = self.code_parts()?;
        let store = self.store_parts()?;
        let segments = self.segment_parts()?;
        Ok(Module {
            types: code.types,
            imports: code.imports,
            funcs: code.funcs,
            tables: store.tables,
            memories: store.memories,
            globals: store.globals,
            exports: store.exports,
            start: self.start,
            elems: segments.elems,
            datas: segments.datas,
            customs: segments.customs,
        })
    }

    fn code_parts(&self) -> Result<CodeParts, NoMemory>
        ensures { IfOk result (λ copy. (copy.types ≡ self.now.types) × (copy.imports ≡ self.now.imports)
            × (copy.funcs ≡ self.now.funcs)) }
    {
        let types = self.types.clone()?;
        let imports = self.imports.clone()?;
        let funcs = self.funcs.clone()?;
        Ok(CodeParts {
            types,
            imports,
            funcs,
        })
    }

    fn store_parts(&self) -> Result<StoreParts, NoMemory>
        ensures { IfOk result (λ copy. (copy.tables ≡ self.now.tables) × (copy.memories ≡ self.now.memories)
            × (copy.globals ≡ self.now.globals) × (copy.exports ≡ self.now.exports)) }
    {
        let tables = self.tables.clone()?;
        let memories = self.memories.clone()?;
        let globals = self.globals.clone()?;
        let exports = self.exports.clone()?;
        Ok(StoreParts {
            tables,
            memories,
            globals,
            exports,
        })
    }

    fn segment_parts(&self) -> Result<SegmentParts, NoMemory>
        ensures { IfOk result (λ copy. (copy.elems ≡ self.now.elems) × (copy.datas ≡ self.now.datas)
            × (copy.customs ≡ self.now.customs)) }
    {
        let elems = self.elems.clone()?;
        let datas = self.datas.clone()?;
        let customs = self.customs.clone()?;
        Ok(SegmentParts {
            elems,
            datas,
            customs,
        })
    }
}

impl Item for Run {
    fn copy(&self) -> Result<Run, NoMemory> {
        Ok(*self)
    }
}
