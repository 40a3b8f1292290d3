// The replay module of a tape, in its binary format.

ghost use Rattle.std.specs.Prelude.{◌≡◌, ◌≤◌, length};
ghost use Rattle.sha2.specs.Sha256.{sha256};
ghost use Rattle.wasm_syntax.specs.declared.limits.TheConstants.{MAX_ORIGINAL_BYTES};
ghost use Rattle.wasm_syntax.specs.declared.forms.Form.TheVariants.{Core};
ghost use Rattle.wasm_syntax.specs.Encoding.Modules.{Encodes};
ghost use Rattle.type_safety.specs.Supplies.{HasBytes};
ghost use Rattle.accepted_runs.specs.Runnable.{CanRun};
ghost use Rattle.r3_faults.specs.Answers.{IsCaused, IsExact};
ghost use Rattle.r3_build.specs.BuiltReplays.{IsBuilt};
ghost use Rattle.r3_build.specs.BuildRefusals.{IsUnbuilt};

use crate::read_tapes::tape_for;
use accepted_runs::supply_that_links;
use host_script::Script;
use r3_faults::Fault;
use replay_laws::replay_bytes;
use sha2::{Digest, Sha256};
use std::alloc::Global;
use trace_format::tape_files;
use type_safety::typed_store;
use wasm_validate::Checked;

/// The replay module of a tape, in its binary format, for a module that `bytes` encode and a script that fits it.
pub(crate) fn replay_for(
    alloc: Global,
    bytes: &[u8],
    checked: Checked,
    script: &Script,
    tape: &[u8],
) -> Result<Vec<u8>, Fault>
    requires encoded { Encodes Core bytes.now checked }
    requires small { length bytes.now ≤ MAX_ORIGINAL_BYTES }
    requires runnable { CanRun checked script.now }
    requires bytes { HasBytes checked }
    ensures { IsExact (IsBuilt checked script.now (sha256 bytes.now) tape.now)
        (IsUnbuilt checked script.now (sha256 bytes.now) tape.now) result }
{
    // Bytes encode at most one tape.
    tape_files();
    built_replay(alloc, bytes, checked, script, tape)
}

/// The bytes of the replay module of a tape, or a fault with its cause.
fn built_replay(
    alloc: Global,
    bytes: &[u8],
    checked: Checked,
    script: &Script,
    tape: &[u8],
) -> Result<Vec<u8>, Fault>
    requires encoded { Encodes Core bytes.now checked }
    requires small { length bytes.now ≤ MAX_ORIGINAL_BYTES }
    requires runnable { CanRun checked script.now }
    requires bytes { HasBytes checked }
    ensures { IsCaused (IsBuilt checked script.now (sha256 bytes.now) tape.now)
        (IsUnbuilt checked script.now (sha256 bytes.now) tape.now) result }
{
    typed_store();
    let supply = supply_that_links(alloc, &checked, script)?;
    let tape = tape_for(alloc, digest_of(bytes), checked.module(), tape)?;
    let printed = replay_bytes(alloc, checked, &supply, tape)?;
    Ok(printed)
}

/// The digest of the bytes of a module.
fn digest_of(bytes: &[u8]) -> [u8; 32]
    ensures { result ≡ sha256 bytes.now }
{
    Sha256::digest(bytes)
}
