// The layout that a replay module declares, and the sides of its functions.

ghost use Rattle.std.specs.Prelude.{◌≡◌, ℕ, ◌+◌, ◌<◌, ◌^◌, [], ◌∷◌, length, IfOk, IfSome, IfNone};
ghost use Rattle.wasm_syntax.specs.Index.{func_indices};
ghost use Rattle.wasm_syntax.specs.declared.modules.Custom as syntax;
ghost use Rattle.history_spec.specs.Projection as projection;
ghost use Rattle.replay_form.specs.Forms.{AreLayoutBytes, HasLayout, layout_sections};
ghost use Rattle.replay_form.specs.Sides.{as_layout, side_of};

use crate::laws::layouts_are_one;
use base::NoMemory;
use leb_bytes::{push_u32, read_u32, u32_encoding};
use std::alloc::Global;
use wasm_syntax::{Custom, Module};

/// The number of functions that the original imports, and the number that it defines.
#[derive(Clone, Copy)]
pub struct Layout {
    pub imports: u32,
    pub defined: u32,
}

/// What a function is: the body in place of an import, an original, or an appended function.
#[derive(Clone, Copy, PartialEq, Eq)]
pub enum Side {
    Import,
    Original,
    Appended,
}

impl Layout {
    /// The side of a function.
    pub fn side(self, func: u32) -> Side
        ensures { side_of result ≡ projection.side (as_layout self) func }
    {
        if func < self.imports {
            Side::Import
        } else if func - self.imports < self.defined {
            Side::Original
        } else {
            Side::Appended
        }
    }
}

/// The only custom section with the layout's name.
fn layout_section(module: &Module) -> Option<&Custom>
    ensures found { IfSome result (λ section. layout_sections «module».now ≡ section.now ∷ []) }
    ensures absent { IfNone result
        ((section : syntax.Custom) → layout_sections «module».now ≡ section ∷ [] → ⊥) }
{
    let mut found = None;
    'customs: for custom in module.customs.as_slice() {
        if custom.name.as_str() == "r3.layout" {
            if found.is_some() {
                return None;
            }
            found = Some(custom);
        }
    }
    found
}

/// The two numbers, if the bytes are their shortest encodings and nothing else.
fn numbers_in(alloc: Global, bytes: &[u8]) -> Result<Option<Layout>, NoMemory>
    ensures found { IfOk result (λ found. IfSome found (λ layout. AreLayoutBytes bytes.now (as_layout layout))) }
    ensures absent { IfOk result (λ found. IfNone found
        ((layout : projection.Layout) → AreLayoutBytes bytes.now layout → ⊥)) }
{
    u32_encoding();
    let Ok((imports, next)) = read_u32(bytes, 0) else {
        return Ok(None);
    };
    let Ok((defined, _end)) = read_u32(bytes, next) else {
        return Ok(None);
    };
    let mut written = Vec::new(alloc);
    push_u32(&mut written, imports)?;
    push_u32(&mut written, defined)?;
    if written.as_slice() == bytes {
        Ok(Some(Layout { imports, defined }))
    } else {
        Ok(None)
    }
}

/// The layout that a module with `funcs` functions declares, imported functions among them: the two numbers in
/// its only custom section `r3.layout`, each in its shortest encoding, and nothing else. The module has at least
/// their sum of functions.
///
/// # Errors
///
/// `NoMemory` if memory is out.
pub fn layout_of(alloc: Global, module: &Module, funcs: usize) -> Result<Option<Layout>, NoMemory>
    requires { funcs ≡ length (func_indices «module».now) }
    ensures found { IfOk result (λ found. IfSome found (λ layout. HasLayout «module».now (as_layout layout))) }
    ensures absent { IfOk result (λ found. IfNone found
        ((layout : projection.Layout) → HasLayout «module».now layout → ⊥)) }
{
    layouts_are_one();
    let Some(section) = layout_section(module) else {
        return Ok(None);
    };
    let Some(layout) = numbers_in(alloc, section.bytes.as_slice())? else {
        return Ok(None);
    };
    if layout.imports as u64 + layout.defined as u64 <= funcs as u64 {
        Ok(Some(layout))
    } else {
        Ok(None)
    }
}
