use crate::hooked_runs::played;
use crate::refusing_hooks::RefusingHooks;
use history_spec::Outcome;
use hook_names::{Hooks, NoHooks};
use host_play::PlayFault;
use r3_inputs::{ModuleFile, module_in};
use sample_inputs::hooked_modules::TWO_ANSWERS;
use sample_inputs::scripts::ANSWERS;
use std::alloc::Global;
use std::test::Fail;
use wasm_flat::Meter;
use wasm_syntax::limits::MAX_INSTRUMENTED_BYTES;

// a script with the answers of `ANSWERS`, and with answers for the hooks, which are never used
const HOOKS_ANSWERED: &str = "{\"imports\":{\"h\":{\"f\":{\"calls\":[{\"return\":{\"i32\":5}},\
    {\"return\":{\"i32\":7}}]}},\"r3\":{\"enter\":{\"rest\":{\"trap\":true}},\
    \"leave\":{\"rest\":{\"do\":[{\"call\":\"g\"}]}}}},\"main\":[{\"call\":\"g\"}]}";

/// The run within a number of turns; each instruction takes one.
fn run_of<H: Hooks>(
    alloc: Global,
    script: &str,
    turns: u64,
    hooks: &mut H,
) -> Result<Result<Outcome, PlayFault>, Fail> {
    let bytes = hex::decode(alloc, TWO_ANSWERS)?;
    if bytes.len() > MAX_INSTRUMENTED_BYTES as usize {
        return Err(Fail::from("a long module"));
    }
    let Ok(checked) = module_in(alloc, ModuleFile::Instrumented, bytes.as_slice()) else {
        return Err(Fail::from("a refused module"));
    };
    played(alloc, &checked, &Meter::all_one(), script, turns, hooks)
}

#[test]
fn runs_take_their_turns(rt: HostRuntime) -> Result<(), Fail> {
    for script in [ANSWERS, HOOKS_ANSWERED] {
        if run_of(rt.alloc(), script, 29, &mut NoHooks)? != Ok(Outcome::Ended) {
            return Err(Fail::from("within 29 turns"));
        }
        if run_of(rt.alloc(), script, 28, &mut NoHooks)? != Err(PlayFault::Spent) {
            return Err(Fail::from("within 28 turns"));
        }
    }
    Ok(())
}

#[test]
fn hooks_take_all_calls(rt: HostRuntime) -> Result<(), Fail> {
    let mut hooks = RefusingHooks {
        at: 1_000,
        taken: 0,
        arguments: 0,
        last: 0,
    };
    if run_of(rt.alloc(), ANSWERS, 29, &mut hooks)? != Ok(Outcome::Ended) {
        return Err(Fail::from("an outcome"));
    }
    // enter 1; for each call pre 0, arg 127 and the answer, post 0; leave 1
    if hooks.taken != 8 || hooks.arguments != 10 || hooks.last != 1 {
        return Err(Fail::from("the calls"));
    }
    Ok(())
}

#[test]
fn a_refused_call_ends_the_run(rt: HostRuntime) -> Result<(), Fail> {
    for number in 0..8 {
        let mut hooks = RefusingHooks {
            at: number,
            taken: 0,
            arguments: 0,
            last: 0,
        };
        if run_of(rt.alloc(), ANSWERS, 29, &mut hooks)? != Err(PlayFault::Hook { number })
            || hooks.taken != number
        {
            return Err(Fail::from("the call"));
        }
    }
    Ok(())
}
