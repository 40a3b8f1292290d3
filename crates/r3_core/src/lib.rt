//! The commands of r3 and the call that runs them.
#![tactic(auto)]

ghost use Rattle.std.specs.Prelude.{◌≡◌, ◌≢◌, ℕ, ◌+◌, ◌≤◌, ◌⊎◌, ◌↔◌, List, [], ◌∷◌, map, Contains, Option, Some, None, IsSome, OnOk, IfOk, IfErr, IsErrAnd, Err};
ghost use Rattle.std.specs.Option.{ForSome};
ghost use Rattle.r3_outside.specs.Count.{Rose, Took};
ghost use Rattle.r3_outside.specs.Growth.{Grew, GrewByPrefix};
ghost use Rattle.r3_faults.specs.Lines.{status_of, line_of, IsReported};
ghost use Rattle.r3_faults.specs.declared.faults.Fault.{Fault};
ghost use Rattle.r3_faults.specs.declared.faults.Fault.TheVariants.{Write as WriteFault};
ghost use Rattle.r3_core.specs.declared.jobs.Job.{Job};
ghost use Rattle.r3_core.specs.Jobs.{files_of, form};
ghost use Rattle.r3_core.specs.Words.{named, texts, AreInRange, IsListed, Says};
ghost use Rattle.r3_core.specs.Meanings.{IsDoable, IsRefusal, Prints};
ghost use Rattle.r3_core.specs.Replayed.{IsReplayed};
ghost use Rattle.r3_core.specs.Causes.{first_longer, loaded, reading_of, AreBytesOf, IsCause, IsPrintCause, IsPrintedFor, NamesNoFile};

use command_files::load_job;
use jobs::Job;
use output::output_of;
use r3_outside::{Files, Sink, put_all};
use replay_text_laws::{
    foreign_replays_print_histories, pair_replays_print_histories, replays_print_histories,
};
use std::alloc::Global;
use words::job_of;

mod command_files;
mod jobs;
mod output;
mod sure;
mod words;

pub use r3_build::build;
pub use r3_faults::Fault;
pub use r3_history::history;
pub use r3_instances::{foreign, foreign_history, pair, pair_history};
pub use r3_instrument::instrument_bytes;
pub use r3_make::{from_call, load_summary, make};
pub use r3_record::log_run;
pub use r3_reduce::reduce_log;
pub use r3_replay::replay_text;
pub use r3_show::show;
pub use sure::r3_in_memory;

/// Does what the words after the program's name say, and returns the status that the program ends with.
///
/// Nothing is written to `out` before all other work is done. A status other than 0 writes one line to `err`; a
/// fault of `err` changes no status.
pub fn r3<F: Files, O: Sink, E: Sink>(
    alloc: Global,
    words: &[String],
    files: &mut F,
    out: &mut O,
    err: &mut E,
) -> u8
    // The words are not a listed call. No file is read then, nor if the words name no file.
    ensures usage { (result ≡ 2) ↔ (¬ (IsListed (texts words.now))) }
    ensures listed { result ≢ 2 → IsListed (texts words.now) }
    ensures unread { (result ≡ 2) ⊎ NamesNoFile (texts words.now) → files.new ≡ files.old }

    // A file was not loaded: it is one of the job that the words say; a file that is too long is the first such one.
    ensures contents_unchanged { F.contents files.new ≡ F.contents files.old }
    ensures read { result ≡ 3 → (job : Job (List ℕ)) × Says (texts words.now) job
        × ((name : List ℕ) × Contains (map (λ file. file.0) (files_of job)) name
        × Rose (F.faults files.old name) (F.faults files.new name)) }
    ensures too_long { result ≡ 4 → (job : Job (List ℕ)) × Says (texts words.now) job
        × ((file : List ℕ × ℕ) × Contains (files_of job) file
        × Took (F.taken files.old file.0) (F.taken files.new file.0) (file.1 + 1)
        × ForSome (F.contents files.old) (λ known. first_longer known (files_of job) ≡ Some file)) }
    ensures longer { (job : Job (List ℕ)) → Says (texts words.now) job → ForSome (F.contents files.old)
        (λ known. IsSome (first_longer known (files_of job))
        → Contains (3 ∷ 4 ∷ 14 ∷ []) result) }

    // The bytes of the files are refused, by the first cause that applies.
    ensures refused { (job : Job (List ℕ)) (fault : Fault) → Says (texts words.now) job
        → ForSome (F.contents files.old) (λ known. first_longer known (files_of job) ≡ None
        → IsRefusal (loaded known job) fault
        → Contains (status_of fault ∷ 3 ∷ 14 ∷ []) result) }

    // The job can be done for the bytes of the files.
    ensures done { (job : Job (List ℕ)) → Says (texts words.now) job
        → ForSome (F.contents files.old) (λ known. first_longer known (files_of job) ≡ None
        → IsDoable (loaded known job)
        → Contains (0 ∷ 3 ∷ 13 ∷ 14 ∷ []) result) }

    // With status 0 no count of faults has risen, and this is printed: what the job prints; and of what `make`,
    // `foreign` and `pair` print, `replay` prints what the run's history is.
    ensures no_failed_read { result ≡ 0 → (name : List ℕ) → F.faults files.new name ≡ F.faults files.old name }
    ensures no_failed_write { result ≡ 0 → O.faults out.new ≡ O.faults out.old }
    ensures printed { result ≡ 0 → (bytes : List ℕ)
        × IsPrintedFor (texts words.now) (F.contents files.old) bytes
        × Grew (O.written out.old) (O.written out.new) bytes }
    ensures write { result ≡ 13 → Rose (O.faults out.old) (O.faults out.new) }
    ensures printed_prefix { result ≡ 13 → (bytes : List ℕ)
        × IsPrintedFor (texts words.now) (F.contents files.old) bytes
        × GrewByPrefix (O.written out.old) (O.written out.new) bytes }
    ensures nothing_printed { result ≢ 0 → result ≢ 13 → out.new ≡ out.old }

    // The line that reports the fault.
    ensures silent { result ≡ 0 → err.new ≡ err.old }
    ensures reported { result ≢ 0 → (fault : Fault) × (status_of fault ≡ result)
        × IsCause (texts words.now)
        (reading_of (F.contents files.old)
        (F.faults files.old) (F.faults files.new) (F.taken files.old) (F.taken files.new))
        (O.faults out.old) (O.faults out.new) fault
        × IsReported (E.written err.old) (E.written err.new) (E.faults err.old) (E.faults err.new)
        (line_of fault) }
{
    match run(alloc, words, files, out) {
        Ok(()) => 0,
        Err(fault) => {
            let _ = fault.put_line(err);
            fault.status()
        }
    }
}

/// Does the job, and returns its fault in place of a status.
fn run<F: Files, O: Sink>(
    alloc: Global,
    words: &[String],
    files: &mut F,
    out: &mut O,
) -> Result<(), Fault>
    ensures contents_unchanged { F.contents files.new ≡ F.contents files.old }
    ensures listed { OnOk result (IsListed (texts words.now)) }
    ensures unlisted { result ≡ Err Fault.Usage → files.new ≡ files.old }
    ensures unread { NamesNoFile (texts words.now) → files.new ≡ files.old }
    ensures longer { (job : Job (List ℕ)) → Says (texts words.now) job → ForSome (F.contents files.old)
        (λ known. IsSome (first_longer known (files_of job))
        → IsErrAnd result (λ fault. Contains (3 ∷ 4 ∷ 14 ∷ []) (status_of fault))) }
    ensures refused { (job : Job (List ℕ)) (fault : Fault) → Says (texts words.now) job
        → ForSome (F.contents files.old) (λ known. first_longer known (files_of job) ≡ None
        → IsRefusal (loaded known job) fault
        → IsErrAnd result (λ other. Contains (status_of fault ∷ 3 ∷ 14 ∷ []) (status_of other))) }
    ensures done { (job : Job (List ℕ)) → Says (texts words.now) job
        → ForSome (F.contents files.old) (λ known. first_longer known (files_of job) ≡ None
        → IsDoable (loaded known job)
        → IfErr result (λ other. Contains (3 ∷ 13 ∷ 14 ∷ []) (status_of other))) }
    ensures no_failed_read { OnOk result ((name : List ℕ) → F.faults files.new name ≡ F.faults files.old name) }
    ensures no_failed_write { OnOk result (O.faults out.new ≡ O.faults out.old) }
    ensures printed { OnOk result ((bytes : List ℕ)
        × IsPrintedFor (texts words.now) (F.contents files.old) bytes
        × Grew (O.written out.old) (O.written out.new) bytes) }
    ensures printed_prefix { result ≡ Err WriteFault → (bytes : List ℕ)
        × IsPrintedFor (texts words.now) (F.contents files.old) bytes
        × GrewByPrefix (O.written out.old) (O.written out.new) bytes }
    ensures nothing_printed { IfErr result (λ fault. fault ≢ WriteFault → out.new ≡ out.old) }
    ensures cause { IfErr result (λ fault. IsCause (texts words.now)
        (reading_of (F.contents files.old)
        (F.faults files.old) (F.faults files.new) (F.taken files.old) (F.taken files.new))
        (O.faults out.old) (O.faults out.new) fault) }
{
    let job = job_of(words)?;
    let printed = output_of_job(alloc, job, files)?;
    put_all(out, &printed)?;
    Ok(())
}

/// The bytes that a job prints.
fn output_of_job<F: Files>(
    alloc: Global,
    job: Job<&String>,
    files: &mut F,
) -> Result<Vec<u8>, Fault>
    requires { AreInRange (form (named job)).numbers }

    ensures contents_unchanged { F.contents files.new ≡ F.contents files.old }
    ensures unread { files_of (named job.entry) ≡ [] → files.new ≡ files.old }
    ensures longer { ForSome (F.contents files.old)
        (λ known. IsSome (first_longer known (files_of (named job.entry)))
        → IsErrAnd result (λ fault. Contains (3 ∷ 4 ∷ 14 ∷ []) (status_of fault))) }
    ensures refused { (fault : Fault) → ForSome (F.contents files.old)
        (λ known. first_longer known (files_of (named job.entry)) ≡ None
        → IsRefusal (loaded known (named job.entry)) fault
        → IsErrAnd result (λ other. Contains (status_of fault ∷ 3 ∷ 14 ∷ []) (status_of other))) }
    ensures done { ForSome (F.contents files.old)
        (λ known. first_longer known (files_of (named job.entry)) ≡ None
        → IsDoable (loaded known (named job.entry))
        → IfErr result (λ other. Contains (3 ∷ 13 ∷ 14 ∷ []) (status_of other))) }
    ensures no_failed_read { OnOk result ((name : List ℕ) → F.faults files.new name ≡ F.faults files.old name) }
    ensures printed { IfOk result (λ bytes. (given : Job (List ℕ))
        × AreBytesOf (F.contents files.old) (named job.entry) given × Prints given bytes.items
        × IsReplayed given bytes.items) }
    ensures cause { IfErr result (λ fault. IsPrintCause
        (reading_of (F.contents files.old)
        (F.faults files.old) (F.faults files.new) (F.taken files.old) (F.taken files.new))
        (named job.entry) fault) }
{
    replays_print_histories();
    foreign_replays_print_histories();
    pair_replays_print_histories();
    let given = load_job(alloc, files, job)?;
    output_of(alloc, &given)
}
