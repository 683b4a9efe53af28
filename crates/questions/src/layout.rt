// The fields of a list, of a question and of an answer.
ghost use Rattle.std.specs.Prelude.{◌≡◌, ℕ, List, Option};
ghost use Rattle.questions.specs.Layout.{PartOf, Finds, lent_bytes, value_in, byte_in};

use field::{Broken, Fields, Item};

// A field's tag and its value.
#[derive(Clone, Copy)]
pub struct Part<'a> {
    pub tag: u8,
    pub value: &'a [u8],
}

impl<'a> Part<'a> {
    // A field that was found in some bytes, if it is whole.
    pub fn of(s: &'a [u8], found: Result<Item, Broken>) -> Option<Self>
        ensures { PartOf s.now found result }
    {
        let x = found.ok()?;
        let value = s.get(x.start..x.end)?;
        Some(Part { tag: x.tag, value })
    }
}

// The value of the first field of a tag.
pub fn find(s: &[u8], tag: u8) -> Option<&[u8]>
    ensures { Finds s.now tag 0 (lent_bytes result) }
{
    for x in Fields::of(s) {
        let Ok(x) = x else {
            return None;
        };
        if x.tag == tag {
            return Some(&s[x.start..x.end]);
        }
    }
    None
}

// The same; empty where there is none.
pub fn value(s: &[u8], tag: u8) -> &[u8]
    ensures { (r : Option (List ℕ)) × Finds s.now tag 0 r × (result.now ≡ value_in r) }
{
    find(s, tag).unwrap_or(b"")
}

// A value of one byte; 0 where there is none.
pub fn byte(s: &[u8], tag: u8) -> u8
    ensures { (r : Option (List ℕ)) × Finds s.now tag 0 r × (result ≡ byte_in (value_in r)) }
{
    match value(s, tag) {
        [b] => *b,
        _ => 0,
    }
}
