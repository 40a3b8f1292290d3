// Scripts: the values and answers that imports take from a text, and the whole script.

ghost use Rattle.std.specs.Prelude.{◌≡◌, map, option_map, option_and_then, option_copied, slice_get, codes, IfSome};
ghost use Rattle.serde_json.specs.View.{view};
ghost use Rattle.script_text.specs.Walk.{Gives, under_or};
ghost use Rattle.module_names.specs.Indexes.{under_names, HoldsFirsts};
ghost use Rattle.script_text.specs.Actions.{InMain, actions_under as actions_below};
ghost use Rattle.script_text.specs.ImportTexts.{look_at_all};
ghost use Rattle.script_text.specs.Texts.{member_for as member_under, value_for as import_value, answer_for as import_answer, script_of, script_of_text};

use crate::faults::{ScriptFault, push_item};
use crate::import_texts::{ImportTexts, look_at_imports};
use crate::objects::{limits_if_there, only};
use crate::paths::below;
use crate::places::Place;
use crate::responses::{actions_under, answer_under};
use crate::values::read_value;
use host_script::{Actions, Answer, Answers, GivenGlobals, Script};
use module_names::{FirstsByNames, ModuleNames, firsts_by_names};
use serde_json::Value;
use std::alloc::Global;
use wasm_syntax::{Import, List, Module, Val};

/// The text under the two names of an import.
fn member_for<'v>(texts: Option<&'v Value>, import: &Import) -> Option<&'v Value>
    ensures { option_map (λ v. view v.now) result
        ≡ member_under (option_map (λ v. view v.now) texts.entry) import.now }
{
    texts?
        .get(import.module.as_str())?
        .get(import.name.as_str())
}

/// The value that an imported global takes.
fn value_for(
    alloc: Global,
    texts: Option<&Value>,
    import: &Import,
) -> Result<Option<Val>, ScriptFault>
    ensures { Gives (λ v. v) result
        (Ok (import_value (option_map (λ v. view v.now) texts.entry) import.now)) }
{
    let Some(value) = member_for(texts, import) else {
        return Ok(None);
    };
    match read_value(alloc, value) {
        Ok(value) => Ok(Some(value)),
        Err(ScriptFault::Memory) => Err(ScriptFault::Memory),
        Err(_) => Ok(None),
    }
}

/// The answers that an imported function takes.
fn answer_for<'a>(
    alloc: Global,
    names: &ModuleNames<'a>,
    texts: Option<&'a Value>,
    import: &'a Import,
) -> Result<Option<Answer>, ScriptFault>
    ensures { Gives (λ a. a) result
        (Ok (import_answer names.now (option_map (λ v. view v.now) texts.entry) import.now)) }
{
    let Some(value) = member_for(texts, import) else {
        return Ok(None);
    };
    let from = import.module.as_str();
    match answer_under(alloc, names, from, import.name.as_str(), value) {
        Ok(answer) => Ok(Some(answer)),
        Err(ScriptFault::Memory) => Err(ScriptFault::Memory),
        Err(_) => Ok(None),
    }
}

/// The value of each imported global.
fn values_for(
    alloc: Global,
    texts: Option<&Value>,
    imports: &[&Import],
) -> Result<GivenGlobals, ScriptFault>
    ensures { Gives (λ given. given) result (Ok (map
        (import_value (option_map (λ v. view v.now) texts.entry))
        (map (λ import. import.now) imports.now))) }
{
    let mut given = Vec::new(alloc);
    'imports: for import in imports {
        let value = value_for(alloc, texts, import)?;
        push_item(&mut given, value)?;
    }
    Ok(List::from_vec(given))
}

/// The answers of an earlier import under the same names.
fn earlier_answer<'a, 's>(
    firsts: &FirstsByNames<'a>,
    answers: &'s [Option<Answer>],
    import: &'a Import,
) -> Option<&'s Option<Answer>>
    ensures { option_copied result ≡ option_and_then (slice_get answers.now)
        (under_names import.now.«module» import.now.name firsts.now.entries) }
{
    let first = firsts.get(&(import.module.as_str(), import.name.as_str()))?;
    answers.get(*first)
}

/// The answers that an imported function takes, or a copy of the answers of an earlier import.
fn answer_or_copy<'a>(
    alloc: Global,
    names: &ModuleNames<'a>,
    texts: Option<&'a Value>,
    import: &'a Import,
    before: Option<&Option<Answer>>,
) -> Result<Option<Answer>, ScriptFault>
    requires { IfSome before (λ answer. answer.now
        ≡ import_answer names.now (option_map (λ v. view v.now) texts) import.now) }
    ensures { Gives (λ a. a) result
        (Ok (import_answer names.now (option_map (λ v. view v.now) texts.entry) import.now)) }
{
    match before {
        Some(Some(answer)) => Ok(Some(answer.clone().map_err(|_| ScriptFault::Memory)?)),
        Some(None) => Ok(None),
        None => answer_for(alloc, names, texts, import),
    }
}

/// The answers of each imported function, with the index of the first import under two names.
fn answers_by<'a>(
    alloc: Global,
    names: &ModuleNames<'a>,
    texts: Option<&'a Value>,
    imports: &[&'a Import],
    firsts: &FirstsByNames<'a>,
) -> Result<Answers, ScriptFault>
    requires { HoldsFirsts firsts.now.entries (map (λ import. import.now) imports.now) }
    ensures { Gives (λ answers. answers) result (Ok (map
        (import_answer names.now (option_map (λ v. view v.now) texts.entry))
        (map (λ import. import.now) imports.now))) }
{
    let mut answers = Vec::new(alloc);
    'imports: for import in imports {
        let import: &'a Import = *import;
        let before = earlier_answer(firsts, answers.as_slice(), import);
        let answer = answer_or_copy(alloc, names, texts, import, before)?;
        push_item(&mut answers, answer)?;
    }
    Ok(List::from_vec(answers))
}

/// The answers of each imported function. Among imports under the same names, the answers of the first are read,
/// and the others take copies.
fn answers_for<'a>(
    alloc: Global,
    names: &ModuleNames<'a>,
    texts: Option<&'a Value>,
    imports: &[&'a Import],
) -> Result<Answers, ScriptFault>
    ensures { Gives (λ answers. answers) result (Ok (map
        (import_answer names.now (option_map (λ v. view v.now) texts.entry))
        (map (λ import. import.now) imports.now))) }
{
    let firsts = firsts_by_names(alloc, imports).map_err(|_| ScriptFault::Memory)?;
    answers_by(alloc, names, texts, imports, &firsts)
}

/// Walks over the texts under the names of imports, if the script has a key for them.
fn look_if_there<'a>(
    alloc: Global,
    names: &ModuleNames<'a>,
    texts: ImportTexts,
    object: &'a Value,
    key: &str,
) -> Result<(), ScriptFault>
    ensures { Gives (λ u. u) result
        (under_or key.now tt (look_at_all texts names.now) (view object.now)) }
{
    match object.get(key) {
        Some(value) => below(alloc, key, look_at_imports(alloc, names, texts, value)),
        None => Ok(()),
    }
}

/// The host's own actions.
fn read_main<'a>(
    alloc: Global,
    names: &ModuleNames<'a>,
    object: &'a Value,
) -> Result<Actions, ScriptFault>
    ensures { Gives (λ a. a) result (actions_below names.now InMain (codes "main") (view object.now)) }
{
    let place = Place {
        name: "",
        types: None,
    };
    actions_under(alloc, names, &place, object, "main")
}

/// The script that a JSON value means for a module.
#[tactic(auto, unfolding(crate::specs::Texts::script_of))]
fn read_value_of_script<'a>(
    alloc: Global,
    names: &ModuleNames<'a>,
    value: &'a Value,
) -> Result<Script, ScriptFault>
    ensures { Gives (λ s. s) result (script_of names.now (view value.now)) }
{
    only(
        alloc,
        value,
        &["memory", "table", "globals", "imports", "main"],
    )?;
    let memory = limits_if_there(alloc, value, "memory", "pages")?;
    let table = limits_if_there(alloc, value, "table", "size")?;
    look_if_there(alloc, names, ImportTexts::Values, value, "globals")?;
    look_if_there(alloc, names, ImportTexts::Answers, value, "imports")?;
    let main = read_main(alloc, names, value)?;
    let globals = values_for(alloc, value.get("globals"), names.globals())?;
    let imports = answers_for(alloc, names, value.get("imports"), names.funcs())?;
    Ok(Script {
        memory,
        table,
        globals,
        imports,
        main,
    })
}

fn read_for_module<'a>(
    alloc: Global,
    module: &'a Module,
    value: &'a Value,
) -> Result<Script, ScriptFault>
    ensures { Gives (λ s. s) result (script_of «module».now (view value.now)) }
{
    match ModuleNames::of(alloc, module) {
        Ok(names) => read_value_of_script(alloc, &names, value),
        Err(_) => Err(ScriptFault::Memory),
    }
}

/// The script that a JSON text means for a module.
///
/// # Errors
///
/// The first fault of the walk over the text, or `Memory` if an allocation failed.
pub fn read_script(alloc: Global, bytes: &[u8], module: &Module) -> Result<Script, ScriptFault>
    ensures { Gives (λ script. script) result (script_of_text «module».now bytes.now) }
{
    match Value::from_slice(alloc, bytes) {
        Ok(value) => read_for_module(alloc, &*module, &value),
        Err(fault) if fault.is_memory() => Err(ScriptFault::Memory),
        Err(_) => Err(ScriptFault::NotJson),
    }
}
