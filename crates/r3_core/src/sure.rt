// The call over files and sinks that never fail.

ghost use Rattle.std.specs.Prelude.{◌≡◌, ◌≢◌, ◌⊎◌, ◌↔◌, ℕ, List, Option, Some, None, IsSome};
ghost use Rattle.r3_outside.specs.Growth.{Grew};
ghost use Rattle.r3_outside.specs.NameCounts.{count_of};
ghost use Rattle.r3_faults.specs.declared.faults.Fault.{Fault};
ghost use Rattle.r3_faults.specs.Lines.{line_of, status_of};
ghost use Rattle.r3_core.specs.declared.jobs.Job.{Job};
ghost use Rattle.r3_core.specs.Jobs.{files_of};
ghost use Rattle.r3_core.specs.Words.{texts, IsListed, Says};
ghost use Rattle.r3_core.specs.Meanings.{IsDoable, IsRefusal};
ghost use Rattle.r3_core.specs.Causes.{first_longer, loaded, reading_of, IsCause, IsPrintedFor, NamesNoFile};

use crate::r3;
use r3_outside::{SureFiles, SureSink};
use std::alloc::Global;

/// [`r3`] over files and sinks in memory, which never fail: no status reports a fault of theirs. If the words
/// are listed and their files are within their limits, the status is 0 if the job can be done and that of the
/// refusal if it can't, and 14 only if an allocation failed.
pub fn r3_in_memory(
    alloc: Global,
    words: &[String],
    files: &mut SureFiles,
    out: &mut SureSink,
    err: &mut SureSink,
) -> u8
    // The words are not a listed call. No file is read then, nor if the words name no file.
    ensures usage { (result ≡ 2) ↔ (¬ (IsListed (texts words.now))) }
    ensures listed { result ≢ 2 → IsListed (texts words.now) }
    ensures unread { (result ≡ 2) ⊎ NamesNoFile (texts words.now) → files.new ≡ files.old }
    ensures contents_unchanged { files.new.files ≡ files.old.files }

    // The status.
    ensures no_read_fault { result ≢ 3 }
    ensures no_write_fault { result ≢ 13 }
    ensures longer { (job : Job (List ℕ)) → Says (texts words.now) job
        → IsSome (first_longer files.old.files (files_of job))
        → (result ≡ 4) ⊎ (result ≡ 14) }
    ensures refused { (job : Job (List ℕ)) (fault : Fault) → Says (texts words.now) job
        → first_longer files.old.files (files_of job) ≡ None
        → IsRefusal (loaded files.old.files job) fault
        → (result ≡ status_of fault) ⊎ (result ≡ 14) }
    ensures done { (job : Job (List ℕ)) → Says (texts words.now) job
        → first_longer files.old.files (files_of job) ≡ None
        → IsDoable (loaded files.old.files job)
        → (result ≡ 0) ⊎ (result ≡ 14) }

    // What is printed.
    ensures printed { result ≡ 0 → (bytes : List ℕ)
        × IsPrintedFor (texts words.now) (Some files.old.files) bytes
        × Grew out.old out.new bytes }
    ensures nothing_printed { result ≢ 0 → out.new ≡ out.old }

    // The line that reports the fault.
    ensures silent { result ≡ 0 → err.new ≡ err.old }
    ensures reported { result ≢ 0 → (fault : Fault) × (status_of fault ≡ result)
        × IsCause (texts words.now)
        (reading_of (Some files.old.files) (λ _. 0) (λ _. 0) (count_of files.old.taken) (count_of files.new.taken))
        0 0 fault
        × Grew err.old err.new (line_of fault) }
{
    r3(alloc, words, files, out, err)
}
