// Which replay modules have guarded modules.

ghost use Rattle.std.specs.Prelude.{◌≡◌, ◌↔◌, ◌+◌, ◌≤◌, ◌++◌, IsTrue, Some, length};
ghost use Rattle.history_spec.specs.Replay.{entry_function};
ghost use Rattle.replay_form.specs.Forms.{HasEntry, IsReplayable};
ghost use Rattle.replay_form.specs.Sides.{as_layout};
ghost use Rattle.replay_module_spec.specs.Fragments.{referred_func, referred_funcs};
ghost use Rattle.guarded_module_spec.specs.Forms.{IsGuardable, has_instr, is_indirect};
ghost use Rattle.std.specs.List.{cons_option, list_any};
ghost use Rattle.std.specs.Prelude.{[], filter_map, nat_eq};

use replay_form::Layout;
use wasm_syntax::{Func, Instr, Module};

/// Whether an instruction is a call through the table.
fn is_indirect(instr: &Instr) -> bool
    ensures { result ≡ is_indirect instr.now }
{
    matches!(instr, Instr::CallIndirect(_))
}

/// Whether a body has a call through the table.
fn body_has_indirect(body: &[Instr]) -> bool
    ensures { result ≡ list_any is_indirect body.now }
{
    'instrs: for instr in body {
        if is_indirect(instr) {
            return true;
        }
    }
    false
}

/// Whether a function of a list calls through the table.
fn has_indirect(funcs: &[Func]) -> bool
    ensures { result ≡ has_instr is_indirect funcs.now }
{
    'funcs: for func in funcs {
        if body_has_indirect(func.body.as_slice()) {
            return true;
        }
    }
    false
}

/// Whether an instruction refers to the function.
fn refers(instr: &Instr, func: u32) -> bool
    ensures { result ≡ list_any (nat_eq func) (cons_option (referred_func instr.now) []) }
{
    match instr {
        Instr::RefFunc(referred) => *referred == func,
        _ => false,
    }
}

/// Whether a body refers to the function.
fn body_refers(body: &[Instr], func: u32) -> bool
    ensures { result ≡ list_any (nat_eq func) (filter_map referred_func body.now) }
{
    'instrs: for instr in body {
        if refers(instr, func) {
            return true;
        }
    }
    false
}

/// Whether a function of a list refers to the function.
fn any_refers(funcs: &[Func], func: u32) -> bool
    ensures { result ≡ list_any (nat_eq func) (referred_funcs funcs.now) }
{
    'funcs: for own in funcs {
        if body_refers(own.body.as_slice(), func) {
            return true;
        }
    }
    false
}

/// Whether a replay module has no export but that of its entry: it is not guarded itself.
pub fn exports_entry_alone(module: &Module, entry: u32) -> bool
    requires { HasEntry «module».now entry }
    ensures { IsTrue result ↔ (entry_function «module».now ≡ Some entry) }
{
    module.exports.as_slice().len() == 1
}

/// Whether a replay module has a guarded module: it has no start function and exports an appended function, to which
/// no function refers, and no function outside the original calls through the table. It has no other export.
pub fn is_guardable(module: &Module, layout: Layout, entry: u32) -> bool
    requires form { IsReplayable «module».now (as_layout layout) entry }
    requires only { entry_function «module».now ≡ Some entry }
    ensures { IsTrue result ↔ IsGuardable «module».now (as_layout layout) entry }
{
    let funcs = module.funcs.as_slice();
    let past = layout.imports as usize + layout.defined as usize;
    module.start.is_none()
        && past <= entry as usize
        && !has_indirect(&funcs[..layout.imports as usize])
        && !has_indirect(&funcs[past..])
        && !any_refers(funcs, entry)
}
