// The bytes into which the spans of a recording entry point: a copy of the image, and behind it the names that were given.
#![tactic(auto)]

ghost use Rattle.std.specs.Prelude.{◌≡◌, None, ◌+◌, ◌≤◌, ◌<◌, length};
ghost use Rattle.basics.specs.Limits.{name_limit};
ghost use Rattle.basics.specs.Name.{lower};
ghost use Rattle.lend.specs.Lending.{Lends};

use spans::NameRef;

// A given name that was tested: the name, where it is valid and so stands in the bytes; and where the next one may be put.
#[derive(Clone, Copy, Debug, PartialEq, Eq)]
pub struct Named {
    pub name: Option<NameRef>,
    pub end: usize,
}

// A name that is not valid, or none: nothing of it is lent.
pub fn not_valid(at: usize) -> Named
    ensures { (result.name ≡ None) × (result.end ≡ at) }
{
    Named {
        name: None,
        end: at,
    }
}

// A given name, written at `at`.
pub fn lend_name(src: &mut [u8], at: usize, name: &[u8]) -> Named
    requires { (at + name_limit ≤ length src.old) × (length src.old ≤ 0xFFFF) }
    ensures { Lends at name.now src.old src.new result }
{
    if paths::sanitize_path_segment(name) {
        let n = name.len();
        let end = at + n;
        field::put_bytes(src, at, name);
        return Named {
            name: Some(spans::span(&src[..end], at, n)),
            end,
        };
    }
    not_valid(at)
}

// A given key, written at `at`. 01, Sixteen numbers, 6: "key lowered first".
pub fn lend_key(src: &mut [u8], at: usize, key: &[u8]) -> Named
    requires { (at + name_limit ≤ length src.old) × (length src.old ≤ 0xFFFF) }
    ensures { Lends at (lower key.now) src.old src.new result }
{
    let n = key.len();
    if basics::NAME_LIMIT < n {
        return not_valid(at);
    }
    paths::normalize_key(key, src, at);
    let end = at + n;
    if paths::sanitize_path_segment(&src[at..end]) {
        return Named {
            name: Some(spans::span(&src[..end], at, n)),
            end,
        };
    }
    not_valid(at)
}
