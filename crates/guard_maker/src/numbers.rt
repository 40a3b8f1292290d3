// The numbers of functions, types and globals in a guarded module.

ghost use Rattle.std.specs.Prelude.{◌≡◌, ◌≤◌, length};
ghost use Rattle.replay_form.specs.Sides.{as_layout};
ghost use Rattle.guarded_module_spec.specs.Numbers as spec;
ghost use Rattle.guard_maker.specs.Bounds.{FitsNumbers, HasRoom};

use guarded_module_spec::Numbers;
use replay_form::Layout;
use wasm_syntax::{Limits, Module};

/// The numbers of a replay module with a layout.
pub(crate) fn numbers_of(module: &Module, layout: Layout, words: usize) -> Numbers
    requires { FitsNumbers «module».now (as_layout layout) words }
    ensures numbers { result ≡ spec.numbers_of «module».now (as_layout layout) }
    ensures room { HasRoom result }
{
    Numbers {
        funcs: module.funcs.as_slice().len() as u32,
        types: module.types.as_slice().len() as u32,
        globals: module.globals.as_slice().len() as u32,
        imports: layout.imports,
        past: layout.imports + layout.defined,
        digests: digest_count(module.memories.as_slice()),
    }
}

/// One function for the digest of the memory, if there is a memory.
fn digest_count(memories: &[Limits]) -> u32
    ensures count { result ≡ spec.digest_count memories.now }
    ensures few { result ≤ 1 }
{
    if memories.is_empty() { 0 } else { 1 }
}

/// The function by which functions outside the original call a function.
pub(crate) fn behind(n: Numbers, func: u32) -> u32
    requires { HasRoom n }
    ensures { result ≡ spec.behind n func }
{
    if func < n.past { n.funcs + func } else { func }
}

/// The function that the guarded module exports.
pub(crate) fn start_place(n: Numbers) -> u32
    requires { HasRoom n }
    ensures { result ≡ spec.start_place n }
{
    n.funcs + n.past
}

/// The function that gives the digest of the memory.
pub(crate) fn digest_place(n: Numbers) -> u32
    requires { HasRoom n }
    ensures { result ≡ spec.digest_place n }
{
    start_place(n) + 1
}

/// The function that takes a word and compares it.
pub(crate) fn check_place(n: Numbers) -> u32
    requires { HasRoom n }
    ensures { result ≡ spec.check_place n }
{
    start_place(n) + n.digests + 1
}

/// The function that gives the next word.
pub(crate) fn next_place(n: Numbers) -> u32
    requires { HasRoom n }
    ensures { result ≡ spec.next_place n }
{
    start_place(n) + n.digests + 2
}

/// The function of the first group of words.
pub(crate) fn first_group(n: Numbers) -> u32
    requires { HasRoom n }
    ensures { result ≡ spec.first_group n }
{
    start_place(n) + n.digests + 3
}
