// Fields and little-endian numbers in lent bytes: 01, How a store is handed over. Every function takes any place; where something is not
// there, or has no room, the answer says so or nothing is written.
#![tactic(auto)]

ghost use Rattle.std.specs.Prelude.{◌≡◌, [], ◌∷◌, ◌-◌, length};
ghost use Rattle.std.specs.Iterator.{at_most};
ghost use Rattle.basics.specs.Field.{little_endian};
ghost use Rattle.field.specs.Writing.{written, field, written_field};
ghost use Rattle.field.specs.Reading.{u32_at, Reads, GivesField};

// A field's tag and the bounds of its value; the next field stands at `end`.
#[derive(Clone, Copy, Debug, PartialEq, Eq)]
pub struct Item {
    pub tag: u8,
    pub start: usize,
    pub end: usize,
}

// Why no field stands at a place: fewer than three bytes are left, or the value goes past the end.
#[derive(Clone, Copy, Debug, PartialEq, Eq)]
pub enum Broken {
    NoHeader,
    NoValue,
}

// The number of the four bytes at `at`, as content numbers and the log have it; 0 where they are not all there.
pub fn u32_at(s: &[u8], at: usize) -> u32
    ensures { result ≡ u32_at s.now at }
{
    if let Some(rest) = s.get(at..)
        && let Some(four) = rest.first_chunk::<4>()
    {
        u32::from_le_bytes(*four)
    } else {
        0
    }
}

// The field that stands at `at`.
pub fn read_field(s: &[u8], at: usize) -> Result<Item, Broken>
    ensures { Reads s.now at result }
{
    if s.len().saturating_sub(at) < 3 {
        return Err(Broken::NoHeader);
    }
    let start = at + 3;
    let len = usize::from(u16::from_le_bytes([s[at + 1], s[at + 2]]));
    if s.len() - start < len {
        return Err(Broken::NoValue);
    }
    Ok(Item {
        tag: s[at],
        start,
        end: start + len,
    })
}

// The fields of some bytes, one behind the other, from a place on.
#[derive(Clone, Copy)]
pub struct Fields<'a> {
    pub bytes: &'a [u8],
    pub at: usize,
}

impl<'a> Fields<'a> {
    // All of them.
    pub fn of(bytes: &'a [u8]) -> Self
        ensures { (result.bytes ≡ bytes.entry) × (result.at ≡ 0) }
    {
        Fields { bytes, at: 0 }
    }
}

// Up to the end of the bytes. Where no field stands it is not known where the next one would: that is told, and is the last.
impl Iterator for Fields<'_> {
    type Item = Result<Item, Broken>;

    ghost next_gives = { GivesField };

    ghost remaining = { λ w. at_most (length w.bytes.now - w.at) };

    fn next(&mut self) -> Option<Result<Item, Broken>> {
        if self.bytes.len() <= self.at {
            return None;
        }
        let found = read_field(self.bytes, self.at);
        self.at = match found {
            Ok(x) => x.end,
            Err(_) => self.bytes.len(),
        };
        Some(found)
    }
}

// Some bytes written at `at`. Here and below nothing is written where there is no room for all.
pub fn put_bytes(out: &mut [u8], at: usize, s: &[u8])
    ensures { out.new ≡ written at s.now out.old }
{
    if at <= out.len() && s.len() <= out.len() - at {
        // Not by `copy_from_slice`: the library for C is to need no `memmove`.
        for (i, b) in s.iter().enumerate() {
            out[at + i] = *b;
        }
    }
}

// One byte written at `at`.
pub fn put_u8(out: &mut [u8], at: usize, b: u8)
    ensures { out.new ≡ written at (b ∷ []) out.old }
{
    // Not by `get_mut`: the library's contract of it doesn't say what the slice holds after the write.
    if at < out.len() {
        out[at] = b;
    }
}

// A number written as two bytes, little-endian.
pub fn put_u16(out: &mut [u8], at: usize, n: u16)
    ensures { out.new ≡ written at (little_endian 2 n) out.old }
{
    put_bytes(out, at, &n.to_le_bytes());
}

// A number written as four bytes, little-endian (wal.rs, `to_le_bytes`).
pub fn put_u32(out: &mut [u8], at: usize, n: u32)
    ensures { out.new ≡ written at (little_endian 4 n) out.old }
{
    put_bytes(out, at, &n.to_le_bytes());
}

// A field's tag and length, for a value that is written behind them.
pub fn put_field_head(out: &mut [u8], at: usize, tag: u8, len: u16)
    ensures { out.new ≡ written at (tag ∷ little_endian 2 len) out.old }
{
    if 3 <= out.len().saturating_sub(at) {
        put_u8(out, at, tag);
        put_u16(out, at + 1, len);
    }
}

// A whole field, if two bytes hold the length of its value.
pub fn write_field(out: &mut [u8], at: usize, tag: u8, value: &[u8])
    ensures { out.new ≡ written_field at (field tag value.now) out.old }
{
    let len = value.len();
    if len <= 0xFFFF {
        if 3 + len <= out.len().saturating_sub(at) {
            put_field_head(out, at, tag, len as u16);
            put_bytes(out, at + 3, value);
        }
    }
}
