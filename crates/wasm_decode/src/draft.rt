// The module under construction.

ghost use Rattle.std.specs.Prelude.{◌≡◌, IfOk};
ghost use Rattle.wasm_decode.specs.Drafts.{module_of_draft, empty_draft, draft_with, section_of};

use crate::code::CodeItem;
use crate::funcs::funcs_of;
use crate::sections::Section;
use base::NoMemory;
use std::alloc::Global;
use wasm_syntax::{Indices, List, Module};

/// What the sections that were read so far hold.
#[derive(Drop)]
pub(crate) struct Draft {
    /// All of the module but the functions.
    pub(crate) parts: Module,
    /// The types of functions, by their indices.
    pub(crate) functions: Indices,
    pub(crate) codes: List<CodeItem>,
}

impl Draft {
    /// The draft before any section. Takes no memory.
    pub(crate) fn new(alloc: Global) -> Draft
        ensures { result ≡ empty_draft }
    {
        Draft {
            parts: Module::empty(alloc),
            functions: List::new(alloc),
            codes: List::new(alloc),
        }
    }

    /// This draft with one more section: a custom one after the others, any other in its place, which was empty.
    pub(crate) fn with(mut self, section: Section) -> Result<Draft, NoMemory>
        ensures { IfOk result (λ draft. draft ≡ draft_with (section_of section) self) }
    {
        match section {
            Section::Custom(custom) => self.parts.customs.push(custom)?,
            Section::Type(types) => self.parts.types = types,
            Section::Import(imports) => self.parts.imports = imports,
            Section::Function(functions) => self.functions = functions,
            Section::Table(tables) => self.parts.tables = tables,
            Section::Memory(memories) => self.parts.memories = memories,
            Section::Global(globals) => self.parts.globals = globals,
            Section::Export(exports) => self.parts.exports = exports,
            Section::Start(func) => self.parts.start = Some(func),
            Section::Element(elems) => self.parts.elems = elems,
            Section::Code(codes) => self.codes = codes,
            Section::Data(datas) => self.parts.datas = datas,
        }
        Ok(self)
    }

    /// The module; None if the function and the code section differ in number (Core 1.0,
    /// 5.5.15).
    pub(crate) fn finish(self, alloc: Global) -> Result<Option<Module>, NoMemory>
        ensures { IfOk result (λ m. m ≡ module_of_draft self) }
    {
        let Some(funcs) = funcs_of(alloc, self.functions, self.codes)? else {
            return Ok(None);
        };
        Ok(Some(Module {
            funcs,
            ..self.parts
        }))
    }
}
