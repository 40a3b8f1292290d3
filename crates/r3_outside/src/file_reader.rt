// Reading whole files.

ghost use Rattle.std.specs.Prelude.{◌≡◌, ℕ, ◌+◌, ◌^◌, ◌<◌, ◌≤◌, List, length, IfOk, IsErrOf, vec_len};
ghost use Rattle.std.specs.Option.{ForSome};
ghost use Rattle.r3_outside.specs.Count.{Rose, Took, NoneFell};
ghost use Rattle.r3_outside.specs.Contents.{file_bytes};

use crate::Files;
use std::alloc::{AllocError, Global};
use thiserror::Error;

/// Why a file was not loaded.
#[derive(Clone, Copy, PartialEq, Eq, Debug, Error)]
pub enum LoadFault {
    #[error("a read failed")]
    Failed,
    #[error("the file is longer than its limit")]
    TooLong,
    #[error("out of memory")]
    Memory,
}

/// The most bytes that `load` asks for in one call.
const PIECE: usize = 65_536;

/// Reads a whole file of at most `limit` bytes, by as many calls as it needs.
///
/// # Errors
///
/// `Failed` if a read of this file failed, `TooLong` if `limit + 1` bytes were taken from it,
/// `Memory` if memory runs out.
pub fn load<F: Files>(
    alloc: Global,
    files: &mut F,
    name: &str,
    limit: u64,
) -> Result<Vec<u8>, LoadFault>
    requires { limit ≤ 2 ^ 29 }

    ensures contents_unchanged { F.contents files.new ≡ F.contents files.old }
    ensures faults_never_fall { NoneFell (F.faults files.old) (F.faults files.new) }
    ensures taken_never_falls { NoneFell (F.taken files.old) (F.taken files.new) }

    ensures within_limit { IfOk result (λ bytes. vec_len bytes ≤ limit) }
    ensures loaded { IfOk result (λ bytes. ForSome (F.contents files.old)
        (λ known. bytes.items ≡ file_bytes known name.now)) }
    ensures not_longer { IfOk result (λ _. ForSome (F.contents files.old)
        (λ known. length (file_bytes known name.now) ≤ limit)) }

    ensures failed { IsErrOf result LoadFault.Failed →
        Rose (F.faults files.old name.now) (F.faults files.new name.now) }
    ensures failed_none { (IsErrOf result LoadFault.Failed → ⊥)
        → (other : List ℕ) → F.faults files.new other ≡ F.faults files.old other }

    ensures too_long { IsErrOf result LoadFault.TooLong →
        Took (F.taken files.old name.now) (F.taken files.new name.now) (limit + 1) }
    ensures longer { IsErrOf result LoadFault.TooLong → ForSome (F.contents files.old)
        (λ known. limit < length (file_bytes known name.now)) }
{
    let most = limit as usize;
    let Ok(mut zeros) = zeros(alloc, PIECE.min(most + 1)) else {
        return Err(LoadFault::Memory);
    };
    let piece = zeros.as_mut_slice();
    let mut bytes = Vec::new(alloc);
    'pieces: loop {
        let room = most - bytes.len();
        let wanted = piece.len().min(room + 1);
        let count = match files.read_at(name, bytes.len() as u64, &mut piece[..wanted]) {
            Ok(count) => count,
            Err(_) => return Err(LoadFault::Failed),
        };
        if count == 0 {
            return Ok(bytes);
        }
        if count > room {
            return Err(LoadFault::TooLong);
        }
        let Ok(()) = bytes.extend_from_slice(&piece[..count]) else {
            return Err(LoadFault::Memory);
        };
    }
}

/// A list of `count` zeros.
fn zeros(alloc: Global, count: usize) -> Result<Vec<u8>, AllocError>
    ensures { IfOk result (λ zeros. vec_len zeros ≡ count) }
{
    vec![in alloc; 0; count]
}
