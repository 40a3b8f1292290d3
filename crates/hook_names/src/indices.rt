// The hooks in their order, and indices of functions in an instrumented module, in which the hooks are between
// imported and defined functions.

ghost use Rattle.std.specs.Prelude.{◌≡◌, ◌+◌, ◌^◌, ◌<◌};
ghost use Rattle.record_replay_spec.specs.Hooks.{hook_count, original, renumber};

use record_replay_spec::Hook;

/// The hooks in the order of their imports.
pub static HOOKS: [Hook; 15] = [
    Hook::Arg,
    Hook::Enter,
    Hook::Leave,
    Hook::Pre,
    Hook::Post,
    Hook::Ipre,
    Hook::Ipost,
    Hook::Load,
    Hook::Store,
    Hook::Size,
    Hook::Grow,
    Hook::Gget,
    Hook::Gset,
    Hook::Copy,
    Hook::Fill,
];

/// The number of hooks.
pub const HOOK_COUNT: u32 = 15;

/// The index in the instrumented module of a function of the original, which imports `imports` functions.
pub fn renumber(imports: u32, func: u32) -> u32
    requires { func + hook_count < 2 ^ 32 }
    ensures { result ≡ renumber imports func }
{
    if func < imports {
        func
    } else {
        func + HOOK_COUNT
    }
}

/// The index in the original, which imports `imports` functions, of a function of the instrumented module.
/// `None` if and only if the function is a hook.
pub fn original(imports: u32, func: u32) -> Option<u32>
    ensures { result ≡ original imports func }
{
    if func < imports {
        Some(func)
    } else if func - imports < HOOK_COUNT {
        None
    } else {
        Some(func - HOOK_COUNT)
    }
}
