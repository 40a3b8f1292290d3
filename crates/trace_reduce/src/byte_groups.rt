// The bytes that a window finds, in groups of addresses.

ghost use Rattle.std.specs.Prelude.{◌≡◌, ◌≤◌, ◌+◌, ℕ, Some, IfOk, OnOk, false, length, nat_eq, unwrap_or};
ghost use Rattle.std.specs.Option.{option_or};
ghost use Rattle.record_replay_spec.specs.Known.{byte_among};
ghost use Rattle.trace_reduce.specs.ByteGroups.{AreInOrder, TakesFront, both_slots, byte_at, slot_at};
ghost use Rattle.trace_reduce.specs.declared.byte_groups.TheConstants.{GROUP};

use base::NoMemory;

/// The number of addresses in a group.
pub(crate) const GROUP: u64 = 4;

/// The bytes at the addresses of a group, `None` if no byte was found at an address.
pub(crate) type Slots = [Option<u8>; 4];

/// A group's number, and its bytes.
pub(crate) type Group = (u32, Slots);

/// Groups in the order in which their bytes were found. A number may occur several times: the first byte found
/// at an address counts.
pub(crate) type Groups = Vec<Group>;

/// Takes the byte at a place if no byte was taken there before.
fn take_byte(slots: &mut Slots, place: usize, byte: u8)
    requires within { place + 1 ≤ GROUP }
    ensures here { slot_at slots.new place ≡ Some (unwrap_or (slot_at slots.old place) byte) }
    ensures others { (q : ℕ) → nat_eq place q ≡ false → slot_at slots.new q ≡ slot_at slots.old q }
{
    slots[place] = slots[place].or(Some(byte));
}

/// Takes the bytes for the places from `from` on, at each place where no byte was taken before.
fn take_slots(slots: &mut Slots, from: usize, bytes: &[u8])
    requires within { from + length bytes.now ≤ GROUP }
    ensures { (place : ℕ) → slot_at slots.new place
        ≡ option_or (slot_at slots.old place) (byte_among from bytes.now place) }
{
    'bytes: for (number, byte) in bytes.iter().enumerate() {
        take_byte(slots, from + number, *byte);
    }
}

/// The slots of the bytes for the places from `from` on.
fn slots_of(from: usize, bytes: &[u8]) -> Slots
    requires within { from + length bytes.now ≤ GROUP }
    ensures { (place : ℕ) → slot_at result place ≡ byte_among from bytes.now place }
{
    let mut slots = [None; 4];
    take_slots(&mut slots, from, bytes);
    slots
}

/// Takes the bytes of other slots, at each place where no byte was taken before.
pub(crate) fn take_others(slots: &mut Slots, others: &Slots)
    ensures { slots.new ≡ both_slots slots.old others.now }
{
    *slots = [
        slots[0].or(others[0]),
        slots[1].or(others[1]),
        slots[2].or(others[2]),
        slots[3].or(others[3]),
    ];
}

/// Takes the first bytes from an address on, as far as they are in one group. Returns the rest.
fn take_front<'a>(groups: &mut Groups, at: u64, bytes: &'a [u8]) -> Result<&'a [u8], NoMemory>
    ensures { IfOk result (λ later. TakesFront groups.old.items at bytes.now groups.new.items later.now) }
{
    // No memory holds bytes up to such an address.
    let Ok(number) = u32::try_from(at / GROUP) else {
        return Err(NoMemory);
    };
    let from = (at % GROUP) as usize;
    let count = bytes.len().min(GROUP as usize - from);
    let (front, later) = bytes.split_at(count);
    groups.push((number, slots_of(from, front)))?;
    Ok(later)
}

/// Takes the bytes for the addresses from `addr` on, after those that were found before.
///
/// # Errors
/// `NoMemory` if an allocation failed.
pub(crate) fn take_bytes(groups: &mut Groups, addr: u32, bytes: &[u8]) -> Result<(), NoMemory>
    ensures { OnOk result ((at : ℕ) → byte_at groups.new.items at
        ≡ option_or (byte_at groups.old.items at) (byte_among addr bytes.now at)) }
{
    let mut at = u64::from(addr);
    let mut left = bytes;
    'left: while !left.is_empty() {
        let later = take_front(groups, at, left)?;
        at += (left.len() - later.len()) as u64;
        left = later;
    }
    Ok(())
}

/// Sorts groups by their numbers; groups of one number stay in the order in which they were found.
///
/// # Errors
/// `NoMemory` if an allocation failed.
pub(crate) fn sort_groups(groups: &mut Groups) -> Result<(), NoMemory>
    ensures sorted { OnOk result (AreInOrder 0 groups.new.items) }
    ensures bytes { OnOk result ((at : ℕ) → byte_at groups.new.items at ≡ byte_at groups.old.items at) }
{
    groups.sort_by_key(|group| group.0)?;
    Ok(())
}
