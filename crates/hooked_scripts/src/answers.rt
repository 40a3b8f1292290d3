// Answers to calls of imports with their functions renumbered, and answers to hook calls.

ghost use Rattle.std.specs.Prelude.{◌≡◌, ◌++◌, IfOk, IfSome, OnOk, Some, length, map, option_map, replicate, All};
ghost use Rattle.record_replay_spec.specs.Hooks.{hook_count};
ghost use Rattle.record_replay_spec.specs.HookedRuns.{hook_answer, renumbered_answer, renumbered_response, with_hook_answers};
ghost use Rattle.hooked_scripts.specs.Low.{AreLowAnswers, IsLowAnswer, IsLowResponse};

use crate::actions::renumbered_actions;
use base::NoMemory;
use hook_names::HOOK_COUNT;
use host_script::{Answer, Answers, Response, ResponseEnd, Responses};
use std::alloc::Global;
use wasm_syntax::List;

/// The answers of a script for a module that imports `imports` functions, renumbered, and then the answers of
/// the hooks.
pub(crate) fn hooked_answers(
    alloc: Global,
    imports: u32,
    answers: Answers,
) -> Result<Answers, NoMemory>
    requires same { length answers ≡ imports }
    requires low { AreLowAnswers answers }
    ensures { IfOk result (λ list.
        list ≡ with_hook_answers imports (map (option_map (renumbered_answer imports)) answers)) }
{
    let mut list = renumbered_answers(alloc, imports, answers)?;
    push_hook_answers(alloc, &mut list)?;
    Ok(List::from_vec(list))
}

/// The answers, renumbered.
fn renumbered_answers(
    alloc: Global,
    imports: u32,
    answers: Answers,
) -> Result<Vec<Option<Answer>>, NoMemory>
    requires { AreLowAnswers answers }
    ensures { IfOk result (λ list. list.items ≡ map (option_map (renumbered_answer imports)) answers) }
{
    let answers = answers.into_vec();
    let mut list = Vec::with_capacity(alloc, answers.len())?;
    'answers: for answer in answers {
        list.push(renumbered_if_any(alloc, imports, answer)?)?;
    }
    Ok(list)
}

/// An answer, renumbered, if there is one.
fn renumbered_if_any(
    alloc: Global,
    imports: u32,
    answer: Option<Answer>,
) -> Result<Option<Answer>, NoMemory>
    requires { IfSome answer IsLowAnswer }
    ensures { IfOk result (λ made. made ≡ option_map (renumbered_answer imports) answer) }
{
    match answer {
        Some(answer) => Ok(Some(renumbered_answer(alloc, imports, answer)?)),
        None => Ok(None),
    }
}

/// An answer, renumbered.
fn renumbered_answer(alloc: Global, imports: u32, answer: Answer) -> Result<Answer, NoMemory>
    requires { IsLowAnswer answer }
    ensures { IfOk result (λ made. made ≡ renumbered_answer imports answer) }
{
    let Answer { calls, rest } = answer;
    let calls = renumbered_responses(alloc, imports, calls)?;
    let rest = match rest {
        Some(response) => Some(renumbered_response(alloc, imports, response)?),
        None => None,
    };
    Ok(Answer { calls, rest })
}

/// The responses to the first calls, renumbered.
fn renumbered_responses(
    alloc: Global,
    imports: u32,
    responses: Responses,
) -> Result<Responses, NoMemory>
    requires { All IsLowResponse responses }
    ensures { IfOk result (λ list. list ≡ map (renumbered_response imports) responses) }
{
    let responses = responses.into_vec();
    let mut list = Vec::with_capacity(alloc, responses.len())?;
    'responses: for response in responses {
        list.push(renumbered_response(alloc, imports, response)?)?;
    }
    Ok(List::from_vec(list))
}

/// A response, renumbered.
fn renumbered_response(
    alloc: Global,
    imports: u32,
    response: Response,
) -> Result<Response, NoMemory>
    requires { IsLowResponse response }
    ensures { IfOk result (λ made. made ≡ renumbered_response imports response) }
{
    let Response { actions, end } = response;
    let actions = renumbered_actions(alloc, imports, actions)?;
    Ok(Response { actions, end })
}

/// Adds the answers of the hooks.
fn push_hook_answers(alloc: Global, answers: &mut Vec<Option<Answer>>) -> Result<(), NoMemory>
    ensures { OnOk result (answers.new.items ≡ answers.old.items ++ replicate hook_count (Some hook_answer)) }
{
    'hooks: for _ in 0..HOOK_COUNT {
        answers.push(Some(hook_answer(alloc)))?;
    }
    Ok(())
}

/// The answer to each call of a hook: it does nothing and returns nothing. Takes no memory.
fn hook_answer(alloc: Global) -> Answer
    ensures { result ≡ hook_answer }
{
    Answer {
        calls: List::new(alloc),
        rest: Some(Response {
            actions: List::new(alloc),
            end: ResponseEnd::Return(None),
        }),
    }
}
