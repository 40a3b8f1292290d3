// Items one after another.

ghost use Rattle.std.specs.Prelude.{◌≤◌, length, IfOk};
ghost use Rattle.trace_format.specs.Files.{AreAllRead, Shrinks};
ghost use Rattle.trace_format.specs.Lines.{AreAllShown};
ghost use Rattle.wasm_syntax.specs.Encoding.Combinators.{first_items};
ghost use Rattle.trace_format.specs.Reading.{first_counted};
ghost use Rattle.leb_bytes.specs.ReadResults.{Gives};
ghost use Rattle.trace_format.specs.ReadResults.{Finds};

use crate::files::FormatFault;
use crate::numbers::first_number;
use base::NoMemory;
use leb_bytes::Unread;
use std::alloc::Global;
use wasm_syntax::List;

/// A kind of items that follow one another in a file.
pub(crate) trait Kind {
    ghost use Rattle.std.specs.Prelude.{ℕ, List, Option};
    ghost use Rattle.leb_bytes.specs.ReadResults.{Gives};

    /// The type of an item.
    type Item: Drop;

    // the plain reader of an item, in a version
    ghost first: { ℕ → List ℕ → Option (Self.Item × List ℕ) };

    /// Reads an item.
    fn first(alloc: Global, version: u8, bytes: &[u8]) -> Result<(Self::Item, &[u8]), Unread>
        ensures { Gives (λ read. (read.0, read.1.now)) result (first version bytes.now) };
}

/// A kind of items that have lines.
pub(crate) trait HasLines: Kind {
    ghost use Rattle.std.specs.Prelude.{◌≡◌, ◌++◌, ℕ, List, OnOk};

    // the lines of an item
    ghost lines: { Self.Item → List ℕ };

    /// Appends the lines of an item.
    fn put_lines(out: &mut Vec<u8>, item: &Self::Item) -> Result<(), NoMemory>
        ensures { OnOk result (out.new.items ≡ out.old.items ++ lines item.now) };
}

/// A kind of items that a file has, with the end after them.
pub(crate) trait FileItem: HasLines {
    ghost use Rattle.std.specs.Prelude.{◌≡◌, ◌≤◌, ◌++◌, ℕ, List, Option, length, OnOk};
    ghost use Rattle.trace_format.specs.Answers.{IsEndAnswer};

    /// What the end contains.
    type End: Drop;

    // the plain reader of the end
    ghost last: { List ℕ → Option (Self.End × List ℕ) };

    // the lines of the end
    ghost end_text: { Self.End → List ℕ };

    /// The end, if nothing follows it.
    fn end(bytes: &[u8], left: &[u8]) -> Result<Self::End, FormatFault>
        requires { length left.now ≤ length bytes.now }
        ensures { IsEndAnswer last bytes.now left.now result };

    /// Appends the lines of the end.
    fn put_end(out: &mut Vec<u8>, end: Self::End) -> Result<(), NoMemory>
        ensures { OnOk result (out.new.items ≡ out.old.items ++ end_text end) };
}

/// The items after a number that counts them.
pub(crate) fn first_counted<K: Kind>(
    alloc: Global,
    version: u8,
    bytes: &[u8],
) -> Result<(List<K::Item>, &[u8]), Unread>
    ensures { Gives (λ read. (read.0, read.1.now)) result (first_counted (K.first version) bytes.now) }
{
    match first_number(bytes) {
        Some((count, rest)) => first_items::<K>(alloc, version, count, rest),
        None => Err(Unread::NotThere),
    }
}

/// The items, in this number.
fn first_items<K: Kind>(
    alloc: Global,
    version: u8,
    count: u32,
    bytes: &[u8],
) -> Result<(List<K::Item>, &[u8]), Unread>
    ensures { Gives (λ read. (read.0, read.1.now)) result (first_items (K.first version) count bytes.now) }
{
    let mut items = Vec::new(alloc);
    let mut rest = bytes;
    for _ in 0..count {
        match K::first(alloc, version, rest) {
            Ok((item, after)) => {
                items.push(item)?;
                rest = after;
            }
            Err(unread) => return Err(unread),
        }
    }
    Ok((List::from_vec(items), rest))
}

/// The next item, if it is whole.
pub(crate) fn next_item<K: Kind>(
    alloc: Global,
    version: u8,
    bytes: &[u8],
) -> Result<Option<(K::Item, &[u8])>, NoMemory>
    ensures { IfOk result (λ next. Finds (λ read. (read.0, read.1.now)) next (K.first version bytes.now)) }
{
    match K::first(alloc, version, bytes) {
        Ok(read) => Ok(Some(read)),
        Err(Unread::NotThere) => Ok(None),
        Err(Unread::Memory) => Err(NoMemory),
    }
}

/// Reads items as long as they are whole; returns them and the bytes left.
///
/// # Errors
/// `NoMemory` if an allocation failed.
pub(crate) fn whole_items<K: Kind>(
    alloc: Global,
    version: u8,
    bytes: &[u8],
) -> Result<(Vec<K::Item>, &[u8]), NoMemory>
    requires { Shrinks (K.first version) }
    ensures read { IfOk result (λ read. AreAllRead (K.first version) bytes.now read.0.items read.1.now) }
    ensures shorter { IfOk result (λ read. length read.1.now ≤ length bytes.now) }
{
    let mut items = Vec::new(alloc);
    let mut rest = bytes;
    while let Some((item, after)) = next_item::<K>(alloc, version, rest)? {
        items.push(item)?;
        rest = after;
    }
    Ok((items, rest))
}

/// Appends the lines of items as long as they are whole, and returns the bytes left. One item at a time is in memory.
///
/// # Errors
/// `NoMemory` if an allocation failed.
pub(crate) fn put_whole_items<'a, K: HasLines>(
    alloc: Global,
    out: &mut Vec<u8>,
    version: u8,
    bytes: &'a [u8],
) -> Result<&'a [u8], NoMemory>
    requires { Shrinks (K.first version) }
    ensures shown { IfOk result (λ left.
        AreAllShown (K.first version) K.lines bytes.now left.now out.old.items out.new.items) }
    ensures shorter { IfOk result (λ left. length left.now ≤ length bytes.now) }
{
    let mut rest = bytes;
    'items: while let Some((item, after)) = next_item::<K>(alloc, version, rest)? {
        K::put_lines(out, &item)?;
        rest = after;
    }
    Ok(rest)
}
