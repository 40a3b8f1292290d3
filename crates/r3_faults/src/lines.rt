// The lines of error.

ghost use Rattle.std.specs.Prelude.{◌≡◌, ◌<◌, ◌≤◌, ◌/◌, ◌%◌, false, [], ◌∷◌, ◌++◌, length, take, flat_map, slice_index, OnOk, OnErr, IfOk, codes, decimal};
ghost use Rattle.hex.specs.Hex.{encode_lower};
ghost use Rattle.r3_outside.specs.Count.{Rose};
ghost use Rattle.r3_outside.specs.Growth.{Grew, GrewByPrefix};
ghost use Rattle.r3_faults.specs.Lines.{line_of, escaped, is_plain, hex_digit, feature_text, kind_text, limit_text, mismatch_text, unresolved_text};

use crate::faults::Fault;
use hex::encode_to_slice;
use history_spec::FaultKind;
use instance_spec::Side;
use itoa::Buffer;
use r3_outside::{PutFault, Sink, put_all, put_parts};
use wasm_syntax::{Feature, Name, Which};

impl Fault {
    /// Writes the line of this fault. Takes no memory.
    ///
    /// # Errors
    ///
    /// `Failed` if a write to `err` failed; a first part of the line is then written.
    pub fn put_line<E: Sink>(&self, err: &mut E) -> Result<(), PutFault>
        ensures faults_never_fall { E.faults err.old ≤ E.faults err.new }
        ensures failed { OnErr result (Rose (E.faults err.old) (E.faults err.new)) }
        ensures failed_none { OnOk result (E.faults err.new ≡ E.faults err.old) }
        ensures wrote { OnOk result (Grew (E.written err.old) (E.written err.new) (line_of self.now)) }
        ensures wrote_prefix { OnErr result
            (GrewByPrefix (E.written err.old) (E.written err.new) (line_of self.now)) }
    {
        match self {
            Fault::Usage => put_all(err, b"usage\n"),
            Fault::Read { name } => put_name(err, b"read: ", name, &[b"\n"]),
            Fault::TooLong { name, limit } => {
                let mut buffer = Buffer::new();
                let limit = buffer.format(*limit).as_bytes();
                put_name(err, b"too long: ", name, &[b" ", limit, b"\n"])
            }
            Fault::Malformed { at } => put_number(err, b"malformed: at ", *at),
            Fault::InvalidFunction { func } => put_number(err, b"invalid: function ", *func),
            Fault::InvalidModule => put_all(err, b"invalid: module\n"),
            Fault::Unsupported {
                func,
                number,
                feature,
            } => put_unsupported(err, *func, *number, *feature),
            Fault::Limit { which, value } => put_number(err, limit_text(*which), *value),
            Fault::Reserved { import } => put_number(err, b"reserved: import ", *import),
            Fault::NotJson => put_all(err, b"script: not json\n"),
            Fault::Shape { path } => put_name(err, b"script: shape ", path, &[b"\n"]),
            Fault::UnknownName { name } => put_name(err, b"script: unknown ", name, &[b"\n"]),
            Fault::WrongType { name } => put_name(err, b"script: type ", name, &[b"\n"]),
            Fault::NoAccess { name } => put_name(err, b"script: no access ", name, &[b"\n"]),
            Fault::CallsOwn { name } => put_name(err, b"script: calls own ", name, &[b"\n"]),
            Fault::Missing { import } => put_number(err, b"link: missing import ", *import),
            Fault::Mismatch { import } => put_number(err, b"link: mismatch import ", *import),
            Fault::Segment { number } => put_number(err, b"link: segment ", *number),
            Fault::Script { turn, kind } => put_script(err, *turn, *kind),
            Fault::Spent { turns } => put_number(err, b"turns spent: ", *turns),
            Fault::Write => put_all(err, b"write\n"),
            Fault::Memory => put_all(err, b"memory\n"),
            Fault::BadTrace { at } => put_number(err, b"trace: bad at ", *at),
            Fault::TraceVersion { found } => put_number(err, b"trace: version ", *found),
            Fault::OtherModule { tape, given } => put_digests(err, tape, given),
            Fault::NotHooked => put_all(err, b"not hooked\n"),
            Fault::HookOrder { number } => put_number(err, b"hook order: call ", *number),
            Fault::Unbalanced { event } => put_number(err, b"unbalanced: event ", *event),
            Fault::Unfit { segment } => put_number(err, b"tape: segment ", *segment),
            Fault::NoLayout => put_all(err, b"replay: layout\n"),
            Fault::NoImports => put_all(err, b"replay: imports\n"),
            Fault::NoEntry => put_all(err, b"replay: entry\n"),
            Fault::TapeLimit { weight } => put_number(err, b"tape limit: ", *weight),
            Fault::DeclNotJson => put_all(err, b"declarations: not json\n"),
            Fault::DeclShape { path } => put_name(err, b"declarations: shape ", path, &[b"\n"]),
            Fault::DeclReserved { import } => put_number(err, b"declarations: reserved ", *import),
            Fault::DeclTaken { name } => put_name(err, b"declarations: taken ", name, &[b"\n"]),
            Fault::PairUnresolved { side, import } => {
                put_number(err, unresolved_text(*side), *import)
            }
            Fault::PairMismatch { side, import } => put_number(err, mismatch_text(*side), *import),
            Fault::TwoMemories => put_all(err, b"pair: two memories\n"),
            Fault::TwoTables => put_all(err, b"pair: two tables\n"),
            Fault::TwoStarts => put_all(err, b"pair: two starts\n"),
            Fault::NoCall { k, calls } => put_no_call(err, *k, *calls),
            Fault::HookedLimit => put_all(err, b"hooked limit: 134217728\n"),
        }
    }
}

/// Writes a line of a text and a number in decimal.
fn put_number<E: Sink>(err: &mut E, text: &[u8], number: u64) -> Result<(), PutFault>
    ensures faults_never_fall { E.faults err.old ≤ E.faults err.new }
    ensures failed { OnErr result (Rose (E.faults err.old) (E.faults err.new)) }
    ensures failed_none { OnOk result (E.faults err.new ≡ E.faults err.old) }
    ensures wrote { OnOk result (Grew (E.written err.old) (E.written err.new)
        (text.now ++ (decimal number ++ codes "\n"))) }
    ensures wrote_prefix { OnErr result (GrewByPrefix (E.written err.old) (E.written err.new)
        (text.now ++ (decimal number ++ codes "\n"))) }
{
    let mut buffer = Buffer::new();
    put_parts(err, &[text, buffer.format(number).as_bytes(), b"\n"])
}

/// The line of a tape of another module, with both digests in hexadecimal.
fn put_digests<E: Sink>(err: &mut E, tape: &[u8; 32], given: &[u8; 32]) -> Result<(), PutFault>
    ensures faults_never_fall { E.faults err.old ≤ E.faults err.new }
    ensures failed { OnErr result (Rose (E.faults err.old) (E.faults err.new)) }
    ensures failed_none { OnOk result (E.faults err.new ≡ E.faults err.old) }
    ensures wrote { OnOk result (Grew (E.written err.old) (E.written err.new)
        (line_of (Fault.OtherModule tape.now given.now))) }
    ensures wrote_prefix { OnErr result (GrewByPrefix (E.written err.old) (E.written err.new)
        (line_of (Fault.OtherModule tape.now given.now))) }
{
    put_parts(
        err,
        &[
            b"other module: ",
            &hexadecimal(tape),
            b" ",
            &hexadecimal(given),
            b"\n",
        ],
    )
}

/// The lower-case hexadecimal digits of a digest.
fn hexadecimal(digest: &[u8; 32]) -> [u8; 64]
    ensures { result ≡ encode_lower digest.now }
{
    let mut digits = [0; 64];
    let Ok(()) = encode_to_slice(digest, &mut digits) else {
        unreachable!();
    };
    digits
}

/// Writes the line of an instruction that is not supported.
fn put_unsupported<E: Sink>(
    err: &mut E,
    func: u64,
    number: u64,
    feature: Feature,
) -> Result<(), PutFault>
    ensures faults_never_fall { E.faults err.old ≤ E.faults err.new }
    ensures failed { OnErr result (Rose (E.faults err.old) (E.faults err.new)) }
    ensures failed_none { OnOk result (E.faults err.new ≡ E.faults err.old) }
    ensures wrote { OnOk result (Grew (E.written err.old) (E.written err.new)
        (line_of (Fault.Unsupported func number feature))) }
    ensures wrote_prefix { OnErr result (GrewByPrefix (E.written err.old) (E.written err.new)
        (line_of (Fault.Unsupported func number feature))) }
{
    let mut func_buffer = Buffer::new();
    let mut number_buffer = Buffer::new();
    put_parts(
        err,
        &[
            b"unsupported: function ",
            func_buffer.format(func).as_bytes(),
            b" instruction ",
            number_buffer.format(number).as_bytes(),
            feature_text(feature),
            b"\n",
        ],
    )
}

/// Writes the line of a top-level call that the run does not have.
fn put_no_call<E: Sink>(err: &mut E, k: u64, calls: u64) -> Result<(), PutFault>
    ensures faults_never_fall { E.faults err.old ≤ E.faults err.new }
    ensures failed { OnErr result (Rose (E.faults err.old) (E.faults err.new)) }
    ensures failed_none { OnOk result (E.faults err.new ≡ E.faults err.old) }
    ensures wrote { OnOk result (Grew (E.written err.old) (E.written err.new)
        (line_of (Fault.NoCall k calls))) }
    ensures wrote_prefix { OnErr result (GrewByPrefix (E.written err.old) (E.written err.new)
        (line_of (Fault.NoCall k calls))) }
{
    let mut call_buffer = Buffer::new();
    let mut count_buffer = Buffer::new();
    put_parts(
        err,
        &[
            b"no call: ",
            call_buffer.format(k).as_bytes(),
            b" of ",
            count_buffer.format(calls).as_bytes(),
            b"\n",
        ],
    )
}

/// Writes the line of an action that the host cannot do.
fn put_script<E: Sink>(err: &mut E, turn: u64, kind: FaultKind) -> Result<(), PutFault>
    ensures faults_never_fall { E.faults err.old ≤ E.faults err.new }
    ensures failed { OnErr result (Rose (E.faults err.old) (E.faults err.new)) }
    ensures failed_none { OnOk result (E.faults err.new ≡ E.faults err.old) }
    ensures wrote { OnOk result (Grew (E.written err.old) (E.written err.new)
        (line_of (Fault.Script turn kind))) }
    ensures wrote_prefix { OnErr result (GrewByPrefix (E.written err.old) (E.written err.new)
        (line_of (Fault.Script turn kind))) }
{
    let mut buffer = Buffer::new();
    put_parts(
        err,
        &[
            b"script fault: turn ",
            buffer.format(turn).as_bytes(),
            kind_text(kind),
            b"\n",
        ],
    )
}

/// The end of the line of an action that the host cannot do.
fn kind_text(kind: FaultKind) -> &'static [u8]
    ensures { result.now ≡ kind_text kind }
{
    match kind {
        FaultKind::NoResponse => b" no response",
        FaultKind::Outside => b" outside",
        FaultKind::TableOutside => b" table outside",
        FaultKind::GrowRefused => b" grow refused",
        FaultKind::EmptyEntry => b" empty entry",
        FaultKind::CallsOwn => b" calls own",
        FaultKind::EntryType => b" entry type",
    }
}

/// The end of the line of an instruction that is not supported.
fn feature_text(feature: Feature) -> &'static [u8]
    ensures { result.now ≡ feature_text feature }
{
    match feature {
        Feature::FloatComparison => b" float comparison",
        Feature::FloatArithmetic => b" float arithmetic",
        Feature::FloatConversion => b" float conversion",
    }
}

/// The beginning of the line of a quantity past its limit.
fn limit_text(which: Which) -> &'static [u8]
    ensures { result.now ≡ limit_text which }
{
    match which {
        Which::Parameters => b"limit: parameters ",
        Which::Table => b"limit: table ",
        Which::Memory => b"limit: memory ",
        Which::Locals => b"limit: locals ",
    }
}

/// The beginning of the line of an import of a pair that no export stands for.
fn unresolved_text(side: Side) -> &'static [u8]
    ensures { result.now ≡ unresolved_text side }
{
    match side {
        Side::Left => b"pair: unresolved left ",
        Side::Right => b"pair: unresolved right ",
    }
}

/// The beginning of the line of an import of a pair that does not match.
fn mismatch_text(side: Side) -> &'static [u8]
    ensures { result.now ≡ mismatch_text side }
{
    match side {
        Side::Left => b"pair: mismatch left ",
        Side::Right => b"pair: mismatch right ",
    }
}

/// Writes a name, escaped, between a text and the parts of another.
fn put_name<E: Sink>(
    err: &mut E,
    before: &[u8],
    name: &Name,
    after: &[&[u8]],
) -> Result<(), PutFault>
    ensures faults_never_fall { E.faults err.old ≤ E.faults err.new }
    ensures failed { OnErr result (Rose (E.faults err.old) (E.faults err.new)) }
    ensures failed_none { OnOk result (E.faults err.new ≡ E.faults err.old) }
    ensures wrote { OnOk result (Grew (E.written err.old) (E.written err.new)
        (before.now ++ (escaped name.now ++ flat_map (λ part. part.now) after.now))) }
    ensures wrote_prefix { OnErr result (GrewByPrefix (E.written err.old) (E.written err.new)
        (before.now ++ (escaped name.now ++ flat_map (λ part. part.now) after.now))) }
{
    put_all(err, before)?;
    put_escaped(err, name.as_str().as_bytes())?;
    put_parts(err, after)
}

/// Writes a text in runs: plain bytes as they are, other bytes escaped.
fn put_escaped<E: Sink>(err: &mut E, text: &[u8]) -> Result<(), PutFault>
    ensures faults_never_fall { E.faults err.old ≤ E.faults err.new }
    ensures failed { OnErr result (Rose (E.faults err.old) (E.faults err.new)) }
    ensures failed_none { OnOk result (E.faults err.new ≡ E.faults err.old) }
    ensures wrote { OnOk result
        (Grew (E.written err.old) (E.written err.new) (escaped text.now)) }
    ensures wrote_prefix { OnErr result
        (GrewByPrefix (E.written err.old) (E.written err.new) (escaped text.now)) }
{
    let mut done = 0;
    'runs: while done < text.len() {
        done += put_run(err, &text[done..])?;
    }
    Ok(())
}

/// Writes the plain bytes that a text begins with, or its first byte escaped, and returns the number of bytes of
/// the text that were written.
fn put_run<E: Sink>(err: &mut E, text: &[u8]) -> Result<usize, PutFault>
    requires { 0 < length text.now }
    ensures faults_never_fall { E.faults err.old ≤ E.faults err.new }
    ensures failed { OnErr result (Rose (E.faults err.old) (E.faults err.new)) }
    ensures failed_none { OnOk result (E.faults err.new ≡ E.faults err.old) }
    ensures some { IfOk result (λ count. 0 < count) }
    ensures within { IfOk result (λ count. count ≤ length text.now) }
    ensures wrote { IfOk result
        (λ count. Grew (E.written err.old) (E.written err.new) (escaped (take count text.now))) }
    ensures wrote_prefix { OnErr result
        (GrewByPrefix (E.written err.old) (E.written err.new) (escaped text.now)) }
{
    let plain = plain_count(text);
    if plain > 0 {
        put_all(err, &text[..plain])?;
        return Ok(plain);
    }
    put_all(err, &escaped_byte(text[0]))?;
    Ok(1)
}

/// The number of plain bytes that a text begins with.
fn plain_count(text: &[u8]) -> usize
    ensures within { result ≤ length text.now }
    ensures plain { escaped (take result text.now) ≡ take result text.now }
    ensures ends { result < length text.now → is_plain (slice_index text.now result) ≡ false }
{
    for (count, byte) in text.iter().enumerate() {
        if !is_plain(*byte) {
            return count;
        }
    }
    text.len()
}

/// Whether a byte is printed as it is.
fn is_plain(byte: u8) -> bool
    ensures { result ≡ is_plain byte }
{
    byte > 0x1f && byte < 0x7f && byte != b'\\'
}

/// A backslash and the two digits of a byte.
fn escaped_byte(byte: u8) -> [u8; 3]
    ensures { result ≡ 92 ∷ hex_digit (byte / 16) ∷ hex_digit (byte % 16) ∷ [] }
{
    [b'\\', hex_digit(byte / 16), hex_digit(byte % 16)]
}

/// A lower-case hexadecimal digit.
fn hex_digit(digit: u8) -> u8
    requires { digit < 16 }
    ensures { result ≡ hex_digit digit }
{
    if digit < 10 {
        b'0' + digit
    } else {
        b'a' - 10 + digit
    }
}
