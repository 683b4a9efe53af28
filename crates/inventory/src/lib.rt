// The inventory as JSON, written at the front of the lent output: 02, item 9.
#![tactic(auto)]

ghost use Rattle.std.specs.Prelude.{◌≡◌, true, [], ◌∷◌, ◌+◌, ◌*◌, ◌≤◌, None, length};
ghost use Rattle.model.specs.Store.{valid_nodes};
ghost use Rattle.answers.specs.Answers.{decimal};
ghost use Rattle.answers.specs.Inventory.{escaped, quoted, inventory_text};
ghost use Rattle.spans.specs.Spans.{name_of, Sound};
ghost use Rattle.store.specs.Tables.{node_of, map_of, SoundNode, SoundTable};
ghost use Rattle.text.specs.Writing.{Writes};
ghost use Rattle.inventory.specs.Putting.{Puts, furthest};
ghost use Rattle.inventory.specs.Walk.{IsKind, divider, ending, dir_text, file_text, node_text, text_from};

use spans::NameRef;
use store::{Node, Table};

// What a node is.
#[derive(Clone, Copy, Debug, PartialEq, Eq)]
pub enum Kind {
    Directory,
    File,
}

// What stands between a node's part and what was put before it, if anything.
fn divider(before: Option<Kind>, kind: Kind) -> &'static [u8]
    ensures { result.now ≡ divider before kind }
{
    match (before, kind) {
        (None, _) => b"",
        (Some(_), Kind::Directory) => b"},",
        (Some(Kind::Directory), Kind::File) => b"",
        (Some(Kind::File), Kind::File) => b",",
    }
}

// The braces of the last directory and of the whole.
fn ending(before: Option<Kind>) -> &'static [u8]
    ensures { result.now ≡ ending before }
{
    match before {
        None => b"}",
        Some(_) => b"}}",
    }
}

// Some bytes, put at `at`. Here and below the answer is where the next bytes go.
fn put(s: &[u8], out: &mut [u8], at: usize) -> usize
    requires { (at ≤ furthest) × (length s.now ≤ 2) }
    ensures { Puts s.now at out.old out.new result × (result ≤ at + 2) }
{
    field::put_bytes(out, at, s);
    at + s.len()
}

// "A double quote in a name is written with a backslash before it; no other byte of a name needs escaping."
fn put_escaped(b: u8, out: &mut [u8], at: usize) -> usize
    requires { at ≤ furthest }
    ensures { Puts (escaped (b ∷ [])) at out.old out.new result × (result ≤ at + 2) }
{
    if b == b'"' {
        return put(b"\\\"", out, at);
    }
    put(&[b], out, at)
}

// Some bytes of a name.
fn put_part(s: &[u8], out: &mut [u8], at: usize) -> usize
    requires { at + 2 * length s.now ≤ furthest }
    ensures { Puts (escaped s.now) at out.old out.new result × (result ≤ at + 2 * length s.now) }
{
    let mut p = at;
    for b in s {
        p = put_escaped(*b, out, p);
    }
    p
}

// A name between double quotes.
fn put_quoted(src: &[u8], name: NameRef, out: &mut [u8], at: usize) -> usize
    requires { Sound src.now name × (at + 150 ≤ furthest) }
    ensures { Puts (quoted (name_of src.now name)) at out.old out.new result × (result ≤ at + 130) }
{
    let (part, baks) = spans::slices(src, name);
    let p = put(b"\"", out, at);
    let q = put_part(part, out, p);
    let r = put_part(baks, out, q);
    put(b"\"", out, r)
}

// A content number in decimal.
fn put_number(n: u32, out: &mut [u8], at: usize) -> usize
    requires { at ≤ furthest }
    ensures { Puts (decimal 10 n) at out.old out.new result × (result ≤ at + 10) }
{
    let k = text::digits(n);
    if out.len() < at + k {
        return at + k;
    }
    text::put_decimal(n, out, at);
    at + k
}

fn kind_of(x: Node) -> Kind
    ensures { IsKind x result }
{
    if x.is_dir() {
        Kind::Directory
    } else {
        Kind::File
    }
}

// A directory's name and the brace that opens its object.
fn put_dir(src: &[u8], name: NameRef, before: Option<Kind>, out: &mut [u8], at: usize) -> usize
    requires { Sound src.now name × (at + 200 ≤ furthest) }
    ensures { Puts (dir_text before (name_of src.now name)) at out.old out.new result × (result ≤ at + 150) }
{
    let p = put(divider(before, Kind::Directory), out, at);
    let q = put_quoted(src, name, out, p);
    put(b":{", out, q)
}

// A file's name and its number.
fn put_file(
    src: &[u8],
    name: NameRef,
    number: u32,
    before: Option<Kind>,
    out: &mut [u8],
    at: usize,
) -> usize
    requires { Sound src.now name × (at + 200 ≤ furthest) }
    ensures { Puts (file_text before (name_of src.now name) number) at out.old out.new result × (result ≤ at + 150) }
{
    let p = put(divider(before, Kind::File), out, at);
    let q = put_quoted(src, name, out, p);
    let r = put(b":", out, q);
    put_number(number, out, r)
}

// "each directory name with an object of its file names and content numbers in decimal"
fn put_node(src: &[u8], x: Node, before: Option<Kind>, out: &mut [u8], at: usize) -> usize
    requires { SoundNode src.now x × (at + 200 ≤ furthest) }
    ensures { Puts (node_text before (node_of src.now x)) at out.old out.new result × (result ≤ at + 150) }
{
    match kind_of(x) {
        Kind::Directory => put_dir(src, x.dir, before, out, at),
        Kind::File => put_file(src, x.file, x.number, before, out, at),
    }
}

// The whole text, at the front of the output.
fn put_text(src: &[u8], t: &Table, out: &mut [u8]) -> usize
    requires { SoundTable src.now t.now }
    ensures { Puts (0x7B ∷ text_from None (map_of src.now t.now)) 0 out.old out.new result }
{
    let mut p = put(b"{", out, 0);
    let mut before = None;
    for x in t.nodes.as_slice() {
        p = put_node(src, *x, before, out, p);
        before = Some(kind_of(*x));
    }
    put(ending(before), out, p)
}

// The text, written whole, or not at all where it has no room. The answer is how many bytes were written.
pub fn put_inventory(src: &[u8], t: &Table, out: &mut [u8]) -> Option<usize>
    requires { SoundTable src.now t.now × (valid_nodes [] (map_of src.now t.now) ≡ true) }
    ensures { Writes (inventory_text (map_of src.now t.now)) out.old out.new result }
{
    let mut none = [0u8; 1];
    let size = put_text(src, t, &mut none);
    if out.len() < size {
        return None;
    }
    Some(put_text(src, t, out))
}
