// The data segments of a known state.

ghost use Rattle.std.specs.Prelude.{◌≡◌, ◌+◌, ◌*◌, ◌≤◌, ◌<◌, [], ◌++◌, length, IfOk, OnOk};
ghost use Rattle.rest_spec.specs.StateSegments.{data_segments, with_block, with_segment, without_last_zeros, zeros_before};
ghost use Rattle.checkpoint.specs.FrozenStates.{state_of_frozen};

use crate::constants::offset_at;
use base::NoMemory;
use recorder::Frozen;
use std::alloc::Global;
use wasm_syntax::limits::PAGE_SIZE;
use wasm_syntax::{DataSeg, DataSegs, List};

/// The number of bytes of a block.
const BLOCK_SIZE: usize = 4096;

/// The number of blocks of a page.
const BLOCKS: usize = PAGE_SIZE as usize / BLOCK_SIZE;

/// The data segments of what was frozen: for each block that is not all zeros, its bytes from the first to the last
/// other than zero. Takes time in the size of the memory, and copies each byte once.
pub(crate) fn frozen_datas(alloc: Global, frozen: &Frozen) -> Result<DataSegs, NoMemory>
    ensures { IfOk result (λ datas. datas ≡ data_segments (state_of_frozen frozen.now).bytes) }
{
    let mut datas = Vec::new(alloc);
    let count = frozen.pages() as usize * BLOCKS;
    'places: for place in 0..count {
        let block = frozen.block(place);
        push_block(alloc, &mut datas, place * BLOCK_SIZE, block)?;
    }
    Ok(List::from_vec(datas))
}

/// Appends the segment of a block at an address, unless all its bytes are zero.
fn push_block(
    alloc: Global,
    datas: &mut Vec<DataSeg>,
    address: usize,
    block: &[u8],
) -> Result<(), NoMemory>
    requires { address + length block.now ≤ usize.MAX }
    ensures { OnOk result (datas.new.items ≡ datas.old.items ++ with_block address block.now []) }
{
    let start = zeros_before(block);
    let bytes = without_last_zeros(&block[start..]);
    push_segment(alloc, datas, address + start, bytes)
}

/// Appends the segment of these bytes at an address, unless there are none.
fn push_segment(
    alloc: Global,
    datas: &mut Vec<DataSeg>,
    address: usize,
    bytes: &[u8],
) -> Result<(), NoMemory>
    ensures { OnOk result (datas.new.items ≡ datas.old.items ++ with_segment address bytes.now []) }
{
    if bytes.is_empty() {
        return Ok(());
    }
    let offset = offset_at(alloc, address as u64)?;
    let bytes = List::from_vec(Vec::from_slice(alloc, bytes)?);
    datas.push(DataSeg {
        memory: 0,
        offset,
        bytes,
    })?;
    Ok(())
}

/// The number of zeros with which bytes begin.
fn zeros_before(bytes: &[u8]) -> usize
    ensures zeros { result ≡ zeros_before bytes.now }
    ensures within { result ≤ length bytes.now }
{
    'bytes: for (place, byte) in bytes.iter().enumerate() {
        if *byte != 0 {
            return place;
        }
    }
    bytes.len()
}

/// The bytes without the zeros at their end.
fn without_last_zeros(bytes: &[u8]) -> &[u8]
    ensures { result.now ≡ without_last_zeros bytes.now }
{
    let mut bytes = bytes;
    'bytes: while let Some((last, shorter)) = bytes.split_last() {
        if *last != 0 {
            return bytes;
        }
        bytes = shorter;
    }
    bytes
}
