// The linked module of a pair, and the script that is read for it, from the bytes of files.

ghost use Rattle.std.specs.Prelude.{◌≡◌, ◌≤◌, IfOk, length};
ghost use Rattle.wasm_syntax.specs.declared.limits.TheConstants.{MAX_FILE_BYTES};
ghost use Rattle.r3_faults.specs.Answers.{IsExactValue};
ghost use Rattle.r3_instances.specs.PairInputs.{pair_fault, pair_source, AreRefusedPairBytes, IsPairFault};
ghost use Rattle.r3_instances.specs.RecordedModules.{AreFromFiles, AreRunInputs, CanBePlayed, CanBeRecorded, IsLinkedOf, IsRecordedFor};
ghost use Rattle.r3_instances.specs.Sources.{AreRefusedWithScript};

use crate::file_modules::file_module;
use crate::run_inputs::{RunInputs, run_inputs};
use linked_pair::link_pair;
use pair_laws::{
    counts_are_within, linked_are_accepted, linked_are_core, linked_are_encodable,
    linked_are_short, linked_are_supported, linked_are_within,
};
use pair_spec::PairFault;
use r3_faults::Fault;
use std::alloc::Global;
use wasm_syntax::encoding_forms;
use wasm_validate::Checked;

/// The linked module and the script for it that the bytes of two modules and of a script are.
///
/// # Errors
///
/// The fault names why the left module is refused, or else the right one, or else why they do not link, or else why
/// the script is refused; `Memory` if memory is exhausted.
pub(crate) fn pair_inputs(
    alloc: Global,
    left: &[u8],
    right: &[u8],
    script: &[u8],
) -> Result<RunInputs, Fault>
    requires left { length left.now ≤ MAX_FILE_BYTES }
    requires right { length right.now ≤ MAX_FILE_BYTES }
    ensures exact { IsExactValue (AreRunInputs (pair_source left.now right.now) script.now)
        (λ fault. AreRefusedWithScript (pair_source left.now right.now) script.now fault) result }
    ensures played { IfOk result (λ inputs. CanBePlayed inputs) }
{
    let linked = linked_file(alloc, left, right)?;
    run_inputs(alloc, linked, script)
}

/// The linked module of the modules that the bytes of two files are.
fn linked_file(alloc: Global, left: &[u8], right: &[u8]) -> Result<Checked, Fault>
    requires left { length left.now ≤ MAX_FILE_BYTES }
    requires right { length right.now ≤ MAX_FILE_BYTES }
    ensures exact { IsExactValue (IsRecordedFor (pair_source left.now right.now))
        (AreRefusedPairBytes left.now right.now) result }
    ensures recorded { IfOk result (λ linked. CanBeRecorded linked) }
{
    let left_module = file_module(alloc, left)?;
    let right_module = file_module(alloc, right)?;
    linked_module(alloc, &left_module, &right_module)
}

/// The linked module of two modules.
fn linked_module(alloc: Global, left: &Checked, right: &Checked) -> Result<Checked, Fault>
    requires { AreFromFiles (record { left = left.now; right = right.now }) }
    ensures exact { IsExactValue (IsLinkedOf (record { left = left.now; right = right.now }))
        (IsPairFault (record { left = left.now; right = right.now })) result }
    ensures recorded { IfOk result (λ linked. CanBeRecorded linked) }
{
    encoding_forms();
    counts_are_within();
    linked_are_accepted();
    linked_are_core();
    linked_are_encodable();
    linked_are_short();
    linked_are_supported();
    linked_are_within();
    match link_pair(alloc, left, right) {
        Ok(pair) => Ok(pair.module),
        Err(fault) => Err(pair_fault(fault)),
    }
}

/// The fault of a pair, as the fault of a call.
fn pair_fault(fault: PairFault) -> Fault
    ensures { result ≡ pair_fault fault }
{
    match fault {
        PairFault::Unresolved { side, import } => Fault::PairUnresolved {
            side,
            import: u64::from(import),
        },
        PairFault::Mismatch { side, import } => Fault::PairMismatch {
            side,
            import: u64::from(import),
        },
        PairFault::TwoMemories => Fault::TwoMemories,
        PairFault::TwoTables => Fault::TwoTables,
        PairFault::TwoStarts => Fault::TwoStarts,
        PairFault::Memory => Fault::Memory,
    }
}
