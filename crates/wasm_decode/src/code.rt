// Readers of the items of code sections (Core 1.0, 5.5.13).

ghost use Rattle.std.specs.Prelude.{◌≡◌};
ghost use Rattle.wasm_syntax.specs.Encoding.Readers.{first_code};
ghost use Rattle.leb_bytes.specs.ReadResults.{Gives};

use crate::expressions::first_expr;
use crate::locals::first_locals;
use crate::values::{Read, first_sized};
use leb_bytes::Unread;
use std::alloc::Global;
use std::marker::Model;
use wasm_syntax::{Body, Form, Runs};

/// The locals and the body of a function.
#[derive(Drop)]
pub(crate) struct CodeItem {
    locals: Runs,
    body: Body,
}

impl Model for CodeItem {
    ghost use Rattle.wasm_syntax.specs.Encoding.Sections as sections;

    ghost Value = { sections.Code };

    ghost view = { λ code. record { locals = code.locals; body = code.body } };
}

impl CodeItem {
    /// The locals and the body. Takes no memory.
    pub(crate) fn into_parts(self) -> (Runs, Body)
        ensures locals { result.0 ≡ self.locals }
        ensures body { result.1 ≡ self.body }
    {
        let CodeItem { locals, body } = self;
        (locals, body)
    }
}

/// The locals and the body of a function, in as many bytes as their size.
#[tactic(auto, unfolding(wasm_syntax::specs::Encoding::Readers::first_code))]
pub(crate) fn first_code(alloc: Global, form: Form, bytes: &[u8]) -> Read<'_, CodeItem>
    ensures { Gives (λ read. (read.0, read.1.now)) result (first_code form bytes.now) }
{
    let (content, rest) = first_sized(bytes)?;
    let (locals, left) = first_locals(alloc, form, content)?;
    let (body, left) = first_expr(alloc, form, left)?;
    if !left.is_empty() {
        return Err(Unread::NotThere);
    }
    Ok((CodeItem { locals, body }, rest))
}
