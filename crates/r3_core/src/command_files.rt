// The files of a job.

ghost use Rattle.std.specs.Prelude.{◌≡◌, ◌≤◌, ◌⊎◌, ℕ, None, List, [], ◌∷◌, length, IfOk, IfErr, OnOk, string_bytes};
ghost use Rattle.std.specs.Option.{ForSome};
ghost use Rattle.wasm_syntax.specs.declared.limits.TheConstants.{MAX_REPLAY_BYTES};
ghost use Rattle.r3_core.specs.Jobs.{files_of};
ghost use Rattle.r3_core.specs.Words.{named};
ghost use Rattle.r3_core.specs.Causes.{bytes_of, first_longer, reading_of, IsFile, IsLoadCause, IsLoaded, IsLoading};
ghost use Rattle.r3_outside.specs.Contents.{file_bytes};
ghost use Rattle.r3_outside.specs.Count.{NoneFell};
ghost use Rattle.r3_faults.specs.declared.faults.Fault.TheVariants.{Memory};

use crate::jobs::Job;
use r3_faults::Fault;
use r3_outside::{Files, LoadFault, load};
use std::alloc::Global;
use wasm_syntax::Name;
use wasm_syntax::limits::{
    MAX_FILE_BYTES, MAX_INSTRUMENTED_BYTES, MAX_REPLAY_BYTES, MAX_TRACE_BYTES,
};

/// Loads the files of a job in sequence, each within its limit in bytes, one row for each command.
pub(crate) fn load_job<F: Files>(
    alloc: Global,
    files: &mut F,
    job: Job<&String>,
) -> Result<Job<Vec<u8>>, Fault>
    ensures contents_unchanged { F.contents files.new ≡ F.contents files.old }
    ensures unread { files_of (named job.entry) ≡ [] → files.new ≡ files.old }
    ensures loads { IsLoading
        (reading_of (F.contents files.old)
        (F.faults files.old) (F.faults files.new) (F.taken files.old) (F.taken files.new))
        (files_of (named job.entry))
        (λ given. IsLoaded (F.contents files.old) (named job.entry) (bytes_of given)) result }
{
    match job {
        Job::Make {
            module,
            script,
            turns,
        } => {
            let (module, script) = load_two(
                alloc,
                files,
                (module, MAX_FILE_BYTES),
                (script, MAX_FILE_BYTES),
            )?;
            Ok(Job::Make {
                module,
                script,
                turns,
            })
        }
        Job::Instrument { module } => {
            let module = load_file(alloc, files, (module, MAX_FILE_BYTES))?;
            Ok(Job::Instrument { module })
        }
        Job::Record {
            hooked,
            script,
            turns,
        } => {
            let (hooked, script) = load_two(
                alloc,
                files,
                (hooked, MAX_INSTRUMENTED_BYTES),
                (script, MAX_FILE_BYTES),
            )?;
            Ok(Job::Record {
                hooked,
                script,
                turns,
            })
        }
        Job::Reduce { log } => {
            let log = load_file(alloc, files, (log, MAX_TRACE_BYTES))?;
            Ok(Job::Reduce { log })
        }
        Job::Build {
            module,
            script,
            tape,
        } => {
            let (module, script, tape) = load_three(
                alloc,
                files,
                (module, MAX_FILE_BYTES),
                (script, MAX_FILE_BYTES),
                (tape, MAX_TRACE_BYTES),
            )?;
            Ok(Job::Build {
                module,
                script,
                tape,
            })
        }
        Job::History {
            module,
            script,
            turns,
        } => {
            let (module, script) = load_two(
                alloc,
                files,
                (module, MAX_FILE_BYTES),
                (script, MAX_FILE_BYTES),
            )?;
            Ok(Job::History {
                module,
                script,
                turns,
            })
        }
        Job::Replay { binary, turns } => {
            let binary = load_file(alloc, files, (binary, MAX_REPLAY_BYTES))?;
            Ok(Job::Replay { binary, turns })
        }
        Job::Show { trace } => {
            let trace = load_file(alloc, files, (trace, MAX_TRACE_BYTES))?;
            Ok(Job::Show { trace })
        }
        Job::Load { calls } => Ok(Job::Load { calls }),
        Job::Foreign {
            module,
            decls,
            script,
            turns,
        } => {
            let (module, decls, script) = load_three(
                alloc,
                files,
                (module, MAX_FILE_BYTES),
                (decls, MAX_FILE_BYTES),
                (script, MAX_FILE_BYTES),
            )?;
            Ok(Job::Foreign {
                module,
                decls,
                script,
                turns,
            })
        }
        Job::ForeignHistory {
            module,
            decls,
            script,
            turns,
        } => {
            let (module, decls, script) = load_three(
                alloc,
                files,
                (module, MAX_FILE_BYTES),
                (decls, MAX_FILE_BYTES),
                (script, MAX_FILE_BYTES),
            )?;
            Ok(Job::ForeignHistory {
                module,
                decls,
                script,
                turns,
            })
        }
        Job::Pair {
            left,
            right,
            script,
            turns,
        } => {
            let (left, right, script) = load_three(
                alloc,
                files,
                (left, MAX_FILE_BYTES),
                (right, MAX_FILE_BYTES),
                (script, MAX_FILE_BYTES),
            )?;
            Ok(Job::Pair {
                left,
                right,
                script,
                turns,
            })
        }
        Job::PairHistory {
            left,
            right,
            script,
            turns,
        } => {
            let (left, right, script) = load_three(
                alloc,
                files,
                (left, MAX_FILE_BYTES),
                (right, MAX_FILE_BYTES),
                (script, MAX_FILE_BYTES),
            )?;
            Ok(Job::PairHistory {
                left,
                right,
                script,
                turns,
            })
        }
        Job::From {
            module,
            script,
            turns,
            call,
        } => {
            let (module, script) = load_two(
                alloc,
                files,
                (module, MAX_FILE_BYTES),
                (script, MAX_FILE_BYTES),
            )?;
            Ok(Job::From {
                module,
                script,
                turns,
                call,
            })
        }
    }
}

/// Loads three files in sequence.
fn load_three<F: Files>(
    alloc: Global,
    files: &mut F,
    first: (&String, u64),
    second: (&String, u64),
    third: (&String, u64),
) -> Result<(Vec<u8>, Vec<u8>, Vec<u8>), Fault>
    requires first { first.1 ≤ MAX_REPLAY_BYTES }
    requires second { second.1 ≤ MAX_REPLAY_BYTES }
    requires third { third.1 ≤ MAX_REPLAY_BYTES }

    ensures contents_unchanged { F.contents files.new ≡ F.contents files.old }
    ensures loads { IsLoading
        (reading_of (F.contents files.old)
        (F.faults files.old) (F.faults files.new) (F.taken files.old) (F.taken files.new))
        ((string_bytes first.entry.0.now, first.entry.1) ∷ (string_bytes second.entry.0.now, second.entry.1)
        ∷ (string_bytes third.entry.0.now, third.entry.1) ∷ [])
        (λ given. IsFile (F.contents files.old) (string_bytes first.entry.0.now, first.entry.1) given.0.items
        × IsFile (F.contents files.old) (string_bytes second.entry.0.now, second.entry.1) given.1.items
        × IsFile (F.contents files.old) (string_bytes third.entry.0.now, third.entry.1) given.2.items) result }
{
    let (first, second) = load_two(alloc, files, first, second)?;
    let third = load_file(alloc, files, third)?;
    Ok((first, second, third))
}

/// Loads two files in sequence.
fn load_two<F: Files>(
    alloc: Global,
    files: &mut F,
    first: (&String, u64),
    second: (&String, u64),
) -> Result<(Vec<u8>, Vec<u8>), Fault>
    requires first { first.1 ≤ MAX_REPLAY_BYTES }
    requires second { second.1 ≤ MAX_REPLAY_BYTES }

    ensures contents_unchanged { F.contents files.new ≡ F.contents files.old }
    ensures loads { IsLoading
        (reading_of (F.contents files.old)
        (F.faults files.old) (F.faults files.new) (F.taken files.old) (F.taken files.new))
        ((string_bytes first.entry.0.now, first.entry.1) ∷ (string_bytes second.entry.0.now, second.entry.1) ∷ [])
        (λ given. IsFile (F.contents files.old) (string_bytes first.entry.0.now, first.entry.1) given.0.items
        × IsFile (F.contents files.old) (string_bytes second.entry.0.now, second.entry.1) given.1.items) result }
{
    let first = load_file(alloc, files, first)?;
    let second = load_file(alloc, files, second)?;
    Ok((first, second))
}

/// Loads one file.
fn load_file<F: Files>(alloc: Global, files: &mut F, file: (&String, u64)) -> Result<Vec<u8>, Fault>
    requires { file.1 ≤ MAX_REPLAY_BYTES }

    ensures contents_unchanged { F.contents files.new ≡ F.contents files.old }
    ensures loads { IsLoading
        (reading_of (F.contents files.old)
        (F.faults files.old) (F.faults files.new) (F.taken files.old) (F.taken files.new))
        ((string_bytes file.entry.0.now, file.entry.1) ∷ [])
        (λ given. IsFile (F.contents files.old) (string_bytes file.entry.0.now, file.entry.1) given.items) result }
{
    let (name, limit) = file;
    load_named(alloc, files, name.as_str(), limit)
}

/// Loads the file of a name.
fn load_named<F: Files>(
    alloc: Global,
    files: &mut F,
    name: &str,
    limit: u64,
) -> Result<Vec<u8>, Fault>
    requires { limit ≤ MAX_REPLAY_BYTES }

    ensures contents_unchanged { F.contents files.new ≡ F.contents files.old }
    ensures faults_never_fall { NoneFell (F.faults files.old) (F.faults files.new) }
    ensures taken_never_falls { NoneFell (F.taken files.old) (F.taken files.new) }

    ensures bytes { IfOk result (λ bytes. ForSome (F.contents files.old)
        (λ known. bytes.items ≡ file_bytes known name.now)) }
    ensures failed_none { OnOk result ((other : List ℕ) → F.faults files.new other ≡ F.faults files.old other) }
    ensures short { IfOk result (λ bytes. length bytes.items ≤ limit) }
    ensures within_limit { OnOk result (ForSome (F.contents files.old)
        (λ known. first_longer known ((name.now, limit) ∷ []) ≡ None)) }
    ensures cause { IfErr result (λ fault. (fault ≡ Memory) ⊎ IsLoadCause
        (reading_of (F.contents files.old)
        (F.faults files.old) (F.faults files.new) (F.taken files.old) (F.taken files.new))
        ((name.now, limit) ∷ []) fault) }
{
    match load(alloc, files, name, limit) {
        Ok(bytes) => Ok(bytes),
        Err(LoadFault::Failed) => Err(Fault::Read {
            name: Name::from_string(String::from_str(alloc, name)?),
        }),
        Err(LoadFault::TooLong) => Err(Fault::TooLong {
            name: Name::from_string(String::from_str(alloc, name)?),
            limit,
        }),
        Err(LoadFault::Memory) => Err(Fault::Memory),
    }
}
