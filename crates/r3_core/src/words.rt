// The meaning of a call's words.

ghost use Rattle.std.specs.Prelude.{◌≡◌, ℕ, [], ◌∷◌, IfOk, IfErr, string_bytes};
ghost use Rattle.r3_core.specs.Words.{named, texts, IsNumber, IsListed, Says};

use crate::jobs::Job;
use itoa::Buffer;
use r3_faults::Fault;
use r3_make::MAX_CALL_NUMBER;
use wasm_syntax::limits::{MAX_HISTORY_TURNS, MAX_LOAD_CALLS, MAX_RECORD_TURNS, MAX_TURNS};

/// The numbers that a word may be, from the least one to the greatest.
#[derive(Clone, Copy)]
pub(crate) struct NumberRange {
    least: u64,
    most: u64,
}

/// Turns of a run that is recorded for its tape.
const TURNS: NumberRange = NumberRange {
    least: 1,
    most: MAX_TURNS,
};
/// Turns of a run whose history is printed.
const HISTORY_TURNS: NumberRange = NumberRange {
    least: 1,
    most: MAX_HISTORY_TURNS,
};
/// Turns of a run whose log is printed, and of a replay module.
const RECORD_TURNS: NumberRange = NumberRange {
    least: 1,
    most: MAX_RECORD_TURNS,
};
/// Numbers of top-level calls.
const CALL_NUMBERS: NumberRange = NumberRange {
    least: 0,
    most: MAX_CALL_NUMBER as u64,
};
/// Calls of an import in a load.
const LOAD_CALLS: NumberRange = NumberRange {
    least: 1,
    most: MAX_LOAD_CALLS as u64,
};

/// Reads the words after the program's name. The only fault is `Usage`. Takes no memory.
pub(crate) fn job_of(words: &[String]) -> Result<Job<&String>, Fault>
    ensures listed { IfOk result (λ job. Says (texts words.now) (named job)) }
    ensures usage { IfErr result (λ fault. fault ≡ Fault.Usage) }
    ensures unlisted { IfErr result (λ _. ¬ (IsListed (texts words.now))) }
{
    match words {
        [name, only] => job_of_one(name, only),
        [name, first, second] => job_of_two(name, first, second),
        [name, first, second, third] => job_of_three(name, first, second, third),
        [name, first, second, third, fourth] => job_of_four(name, first, second, third, fourth),
        _ => Err(Fault::Usage),
    }
}

/// Reads the name of a command and one word after it, one row for each command. The only fault is `Usage`.
fn job_of_one<'a>(name: &str, only: &'a String) -> Result<Job<&'a String>, Fault>
    ensures listed { IfOk result (λ job. Says (name.now ∷ string_bytes only.now ∷ []) (named job)) }
    ensures usage { IfErr result (λ fault. fault ≡ Fault.Usage) }
    ensures unlisted { IfErr result (λ _. ¬ (IsListed (name.now ∷ string_bytes only.now ∷ []))) }
{
    match name {
        "instrument" => Ok(Job::Instrument { module: only }),
        "reduce" => Ok(Job::Reduce { log: only }),
        "show" => Ok(Job::Show { trace: only }),
        "load" => Ok(Job::Load {
            calls: number_of(only, LOAD_CALLS)? as u32,
        }),
        _ => Err(Fault::Usage),
    }
}

/// Reads the name of a command and two words after it, one row for each command. The only fault is `Usage`.
fn job_of_two<'a>(name: &str, first: &'a String, second: &str) -> Result<Job<&'a String>, Fault>
    ensures listed { IfOk result (λ job.
        Says (name.now ∷ string_bytes first.now ∷ second.now ∷ []) (named job)) }
    ensures usage { IfErr result (λ fault. fault ≡ Fault.Usage) }
    ensures unlisted { IfErr result (λ _. ¬ (IsListed (name.now ∷ string_bytes first.now ∷ second.now ∷ []))) }
{
    match name {
        "replay" => Ok(Job::Replay {
            binary: first,
            turns: number_of(second, RECORD_TURNS)?,
        }),
        _ => Err(Fault::Usage),
    }
}

/// Reads the name of a command and three words after it, one row for each command. The only fault is `Usage`.
fn job_of_three<'a>(
    name: &str,
    first: &'a String,
    second: &'a String,
    third: &'a String,
) -> Result<Job<&'a String>, Fault>
    ensures listed { IfOk result (λ job. Says
        (name.now ∷ string_bytes first.now ∷ string_bytes second.now ∷ string_bytes third.now ∷ []) (named job)) }
    ensures usage { IfErr result (λ fault. fault ≡ Fault.Usage) }
    ensures unlisted { IfErr result (λ _. ¬ (IsListed
        (name.now ∷ string_bytes first.now ∷ string_bytes second.now ∷ string_bytes third.now ∷ []))) }
{
    match name {
        "make" => Ok(Job::Make {
            module: first,
            script: second,
            turns: number_of(third, TURNS)?,
        }),
        "record" => Ok(Job::Record {
            hooked: first,
            script: second,
            turns: number_of(third, RECORD_TURNS)?,
        }),
        "build" => Ok(Job::Build {
            module: first,
            script: second,
            tape: third,
        }),
        "history" => Ok(Job::History {
            module: first,
            script: second,
            turns: number_of(third, HISTORY_TURNS)?,
        }),
        _ => Err(Fault::Usage),
    }
}

/// Reads the name of a command and four words after it, one row for each command. The only fault is `Usage`.
fn job_of_four<'a>(
    name: &str,
    first: &'a String,
    second: &'a String,
    third: &'a String,
    fourth: &str,
) -> Result<Job<&'a String>, Fault>
    ensures listed { IfOk result (λ job. Says
        (name.now ∷ string_bytes first.now ∷ string_bytes second.now ∷ string_bytes third.now ∷ fourth.now ∷ [])
        (named job)) }
    ensures usage { IfErr result (λ fault. fault ≡ Fault.Usage) }
    ensures unlisted { IfErr result (λ _. ¬ (IsListed
        (name.now ∷ string_bytes first.now ∷ string_bytes second.now ∷ string_bytes third.now ∷ fourth.now ∷ []))) }
{
    match name {
        "foreign" => Ok(Job::Foreign {
            module: first,
            decls: second,
            script: third,
            turns: number_of(fourth, TURNS)?,
        }),
        "foreign-history" => Ok(Job::ForeignHistory {
            module: first,
            decls: second,
            script: third,
            turns: number_of(fourth, HISTORY_TURNS)?,
        }),
        "pair" => Ok(Job::Pair {
            left: first,
            right: second,
            script: third,
            turns: number_of(fourth, TURNS)?,
        }),
        "pair-history" => Ok(Job::PairHistory {
            left: first,
            right: second,
            script: third,
            turns: number_of(fourth, HISTORY_TURNS)?,
        }),
        "from" => Ok(Job::From {
            module: first,
            script: second,
            turns: number_of(third, TURNS)?,
            call: number_of(fourth, CALL_NUMBERS)? as u32,
        }),
        _ => Err(Fault::Usage),
    }
}

/// Reads a number of a range in decimal, without a sign and leading zeros. The only fault is `Usage`.
fn number_of(word: &str, range: NumberRange) -> Result<u64, Fault>
    ensures fits { IfOk result (λ number. IsNumber range word.now number) }
    ensures usage { IfErr result (λ fault. fault ≡ Fault.Usage) }
    ensures unfit { IfErr result (λ _. (number : ℕ) → ¬ (IsNumber range word.now number)) }
{
    number_between(word, range.least, range.most)
}

/// Reads a number from `least` to `most` in decimal, without a sign and leading zeros. The only fault is `Usage`.
fn number_between(word: &str, least: u64, most: u64) -> Result<u64, Fault>
    ensures fits { IfOk result (λ number. IsNumber (record { least = least; most = most }) word.now number) }
    ensures usage { IfErr result (λ fault. fault ≡ Fault.Usage) }
    ensures unfit { IfErr result
        (λ _. (number : ℕ) → ¬ (IsNumber (record { least = least; most = most }) word.now number)) }
{
    let Ok(number) = word.parse::<u64>() else {
        return Err(Fault::Usage);
    };
    let mut buffer = Buffer::new();
    if number < least || most < number || buffer.format(number) != word {
        return Err(Fault::Usage);
    }
    Ok(number)
}
