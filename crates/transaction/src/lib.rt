// The operations, of seven kinds, and their payload: transaction.rs; 01, How a store is handed over, "The payload stands in for rkyv".
#![tactic(auto)]

ghost use Rattle.std.specs.Prelude.{◌≡◌, List, [], ◌∷◌, ℕ, ◌+◌, ◌≤◌, ◌++◌, length};
ghost use Rattle.basics.specs.Base.{same_bytes};
ghost use Rattle.basics.specs.Field.{encode_field};
ghost use Rattle.model.specs.Operation.{field_tags, is_mark, valid_value, encode_payload};
ghost use Rattle.field.specs.Writing.{field};
ghost use Rattle.spans.specs.Spans.{name_of, Sound, Decides};
ghost use Rattle.fixed_vec.specs.FixedVec.{fixed_vec_len};
ghost use Rattle.basic_laws.specs.Tests.{All};
ghost use Rattle.transaction.specs.Operations.{op_of, SoundOp, unused, in_bounds, Decodes, Encodes, WritesOp};
ghost use Rattle.transaction.specs.Rows.{kind_number, NamesKind, SoundParts, Matches, Makes, column_of, SoundColumn, row_payload};

use Column::{Byte, Name};
use fixed_vec::FixedVec;
use spans::NameRef;

// A recorded operation. Its names are parts of the lent bytes.
#[derive(Clone, Copy)]
pub enum Operation {
    // Collection, key, staging name.
    Write(NameRef, NameRef, NameRef),
    // Collection, key.
    Delete(NameRef, NameRef),
    DeleteAll(NameRef),
    CreateCollection(NameRef),
    DeleteCollection(NameRef),
    // Source, destination, whether the destination existed.
    CopyCollection(NameRef, NameRef, bool),
    // Collection, key, staging name, whether the key's file stood when it was recorded.
    MarkedWrite(NameRef, NameRef, NameRef, bool),
}

// What an unused place of a fixed-size vector holds.
impl Default for Operation {
    ghost is_default = { λ op. op ≡ unused };

    fn default() -> Operation {
        Operation::DeleteAll(spans::EMPTY)
    }
}

// A payload's bytes. Five fields have at most 3 + 64 bytes each.
pub type Payload = FixedVec<u8, 335>;

// The kinds by the bytes that stand for them. 02, item 4: "A new kind 7, marked Write".
#[derive(Clone, Copy, Debug, PartialEq, Eq)]
enum Kind {
    Write = 1,
    Delete,
    DeleteAll,
    CreateCollection,
    DeleteCollection,
    CopyCollection,
    MarkedWrite,
}

// A byte that stands for no kind.
#[derive(Clone, Copy, Debug, PartialEq, Eq)]
struct UnknownKind;

impl From<Kind> for u8 {
    ghost from_gives = { λ kind byte. byte ≡ kind_number kind };

    fn from(kind: Kind) -> u8 {
        kind as u8
    }
}

impl TryFrom<u8> for Kind {
    type Error = UnknownKind;

    ghost try_from_gives = { NamesKind };

    fn try_from(byte: u8) -> Result<Kind, UnknownKind> {
        match byte {
            1 => Ok(Kind::Write),
            2 => Ok(Kind::Delete),
            3 => Ok(Kind::DeleteAll),
            4 => Ok(Kind::CreateCollection),
            5 => Ok(Kind::DeleteCollection),
            6 => Ok(Kind::CopyCollection),
            7 => Ok(Kind::MarkedWrite),
            _ => Err(UnknownKind),
        }
    }
}

// 01: "The fields of each kind stand in one constant table of six rows"; 02, item 4: "the table's seventh row". The tags of a kind.
const FIELD_TABLE: &[&[u8]; 7] = &[
    &[1, 2, 3, 4],
    &[1, 2, 3],
    &[1, 2],
    &[1, 2],
    &[1, 2],
    &[1, 2, 5, 6],
    &[1, 2, 3, 4, 7],
];

impl Kind {
    // The tags of a kind's fields: its row of the table, counted from 1.
    #[tactic(auto, unfolding(model::specs::Operation::field_tags, model::specs::Operation::field_table))]
    fn tags(self) -> &'static [u8]
        ensures { result.now ≡ field_tags (kind_number self) }
    {
        FIELD_TABLE[self as usize - 1]
    }
}

// A value to be written: a name, or one byte.
#[derive(Clone, Copy)]
enum Column {
    Name(NameRef),
    Byte(u8),
}

// Whether a tag's value is one byte that is 0 or 1.
fn is_mark(tag: u8) -> bool
    ensures { result ≡ is_mark tag }
{
    tag == 6 || tag == 7
}

// Whether a field's value is valid: the kind has one byte, a mark is 0 or 1, all else is a name.
#[tactic(auto, unfolding(model::specs::Operation::valid_value))]
fn valid_value(tag: u8, v: &[u8]) -> bool
    ensures { result ≡ valid_value (field tag v.now) }
{
    if tag == 1 {
        v.len() == 1
    } else if is_mark(tag) {
        matches!(v, [0 | 1])
    } else {
        paths::sanitize_path_segment(v)
    }
}

// The values of the fields from `start` on, as parts of the bytes. 01: "Ascending tags, exactly these, all names valid, nothing behind."
fn read_row(s: &[u8], start: usize, row: &[u8]) -> Option<[NameRef; 5]>
    requires { (length row.now ≤ 5) × ((start ≤ length s.now) × (length s.now ≤ 0xFFFF)) }
    ensures { Matches s.now row.now start result }
{
    let mut parts = [spans::EMPTY; 5];
    let mut at = start;
    for (i, tag) in row.iter().enumerate() {
        let Ok(x) = field::read_field(s, at) else {
            return None;
        };
        if x.tag != *tag || !valid_value(x.tag, &s[x.start..x.end]) {
            return None;
        }
        parts[i] = spans::span(s, x.start, x.end - x.start);
        at = x.end;
    }
    if at == s.len() { Some(parts) } else { None }
}

// Whether a part of the bytes is the byte 1.
fn is_marked(src: &[u8], r: NameRef) -> bool
    requires { Sound src.now r }
    ensures { result ≡ same_bytes (name_of src.now r) (1 ∷ []) }
{
    r.baks == 0 && matches!(spans::slices(src, r).0, [1])
}

// The operation of a kind and the values under its row's tags.
fn operation_of(src: &[u8], kind: Kind, parts: [NameRef; 5]) -> Operation
    requires { SoundParts src.now parts }
    ensures { Makes src.now kind parts result }
{
    let [_, a, b, c, d] = parts;
    match kind {
        Kind::Write => Operation::Write(a, b, c),
        Kind::Delete => Operation::Delete(a, b),
        Kind::DeleteAll => Operation::DeleteAll(a),
        Kind::CreateCollection => Operation::CreateCollection(a),
        Kind::DeleteCollection => Operation::DeleteCollection(a),
        Kind::CopyCollection => Operation::CopyCollection(a, b, is_marked(src, c)),
        Kind::MarkedWrite => Operation::MarkedWrite(a, b, c, is_marked(src, d)),
    }
}

// Whether spans can point into the part between two places: their starts are numbers of two bytes.
#[tactic(auto, unfolding(crate::specs::Operations::in_bounds))]
pub fn in_bounds(src: &[u8], start: usize, end: usize) -> bool
    ensures { result ≡ in_bounds src.now start end }
{
    start <= end && end <= src.len() && src.len() <= 0xFFFF
}

// The operation of the payload between two places: the kind's field says which row the fields must fit.
pub fn decode_operation(src: &[u8], start: usize, end: usize) -> Option<Operation>
    ensures { Decodes src.now start end result }
{
    if !in_bounds(src, start, end) {
        return None;
    }
    let s = &src[..end];
    let Ok(x) = field::read_field(s, start) else {
        return None;
    };
    let byte = s[x.start..x.end].first()?;
    let kind = Kind::try_from(*byte).ok()?;
    let parts = read_row(s, start, kind.tags())?;
    Some(operation_of(src, kind, parts))
}

// Whether two names lie in the bytes.
fn are_sound(src: &[u8], a: NameRef, b: NameRef) -> bool
    ensures { Decides (Sound src.now a × Sound src.now b) result }
{
    spans::is_sound(src, a) && spans::is_sound(src, b)
}

// Whether all names of an operation lie in the bytes.
pub fn is_sound(src: &[u8], op: Operation) -> bool
    ensures { Decides (SoundOp src.now op) result }
{
    match op {
        Operation::Write(c, k, s) | Operation::MarkedWrite(c, k, s, _) => {
            spans::is_sound(src, c) && are_sound(src, k, s)
        }
        Operation::Delete(a, b) | Operation::CopyCollection(a, b, _) => are_sound(src, a, b),
        Operation::DeleteAll(c) | Operation::CreateCollection(c) | Operation::DeleteCollection(c) =>
            spans::is_sound(src, c),
    }
}

// A field behind what a payload has.
fn push_field(src: &[u8], tag: u8, value: Column, payload: &mut Payload)
    requires { SoundColumn src.now value × (fixed_vec_len payload.old + 67 ≤ 335) }
    ensures items { payload.new.items ≡ payload.old.items ++ encode_field (field tag (column_of src.now value)) }
    ensures len { fixed_vec_len payload.new ≤ fixed_vec_len payload.old + 67 }
{
    payload.push(tag);
    match value {
        Byte(b) => {
            payload.push(1);
            payload.push(0);
            payload.push(b);
        }
        Name(r) => {
            let (part, baks) = spans::slices(src, r);
            payload.push((part.len() + baks.len()) as u8);
            payload.push(0);
            payload.extend_from_slice(part);
            payload.extend_from_slice(baks);
        }
    }
}

// The fields of a kind's row: the kind, and the values behind it.
fn row_of(src: &[u8], kind: Kind, values: &[Column]) -> Payload
    requires { All (SoundColumn src.now) values.now }
    ensures { result.items ≡ row_payload src.now kind values.now }
{
    let mut payload = FixedVec::new();
    push_field(src, 1, Byte(u8::from(kind)), &mut payload);
    for (tag, value) in kind.tags()[1..].iter().zip(values) {
        push_field(src, *tag, *value, &mut payload);
    }
    payload
}

// The fields of an operation, one behind the other, by the row of its kind. 01: "0x06 destination existed, one byte 0 or 1"; 02, item 4: "tag 0x07 is
// one byte, 1 if the key's file stood when it was recorded, else 0".
#[tactic(auto, unfolding(crate::specs::Rows::row_payload, model::specs::Operation::encode_payload, model::specs::Operation::kind, model::specs::Operation::values))]
fn fields_of(src: &[u8], op: Operation) -> Payload
    requires { SoundOp src.now op }
    ensures { result.items ≡ encode_payload (op_of src.now op) }
{
    match op {
        Operation::Write(c, k, s) => row_of(src, Kind::Write, &[Name(c), Name(k), Name(s)]),
        Operation::Delete(c, k) => row_of(src, Kind::Delete, &[Name(c), Name(k)]),
        Operation::DeleteAll(c) => row_of(src, Kind::DeleteAll, &[Name(c)]),
        Operation::CreateCollection(c) => row_of(src, Kind::CreateCollection, &[Name(c)]),
        Operation::DeleteCollection(c) => row_of(src, Kind::DeleteCollection, &[Name(c)]),
        Operation::CopyCollection(a, b, existed) => row_of(
            src,
            Kind::CopyCollection,
            &[Name(a), Name(b), Byte(u8::from(existed))],
        ),
        Operation::MarkedWrite(c, k, s, stood) => row_of(
            src,
            Kind::MarkedWrite,
            &[Name(c), Name(k), Name(s), Byte(u8::from(stood))],
        ),
    }
}

// An operation's payload; none where its names do not all lie in the bytes.
pub fn payload_of(src: &[u8], op: Operation) -> Option<Payload>
    ensures { Encodes src.now op result }
{
    if is_sound(src, op) {
        Some(fields_of(src, op))
    } else {
        None
    }
}

// An operation's payload written at `at`, and how long it is; none where its names do not all lie in the bytes.
pub fn encode_operation(src: &[u8], op: Operation, out: &mut [u8], at: usize) -> Option<usize>
    ensures { WritesOp src.now op (encode_payload (op_of src.now op)) at out.old out.new result }
{
    let payload = payload_of(src, op)?;
    field::put_bytes(out, at, &payload);
    Some(payload.len())
}
