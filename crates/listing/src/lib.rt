// The text of the listing program, written at the front of the lent output: 01, Listings and file steps.
#![tactic(auto)]

ghost use Rattle.std.specs.Prelude.{◌≡◌, ◌+◌, ◌≤◌, length};
ghost use Rattle.answers.specs.Answers.{listing_line, listing};
ghost use Rattle.field.specs.Writing.{written};
ghost use Rattle.store.specs.Places.{table_room};
ghost use Rattle.store.specs.Tables.{node_of, live, map_of, SoundNode, SoundTable};
ghost use Rattle.text.specs.Writing.{Writes};
ghost use Rattle.listing.specs.Lines.{number_end, answer_line, lines_of, text_of, LineSize, LinesSize};

use refusals::Refusal;
use store::{Node, Table};

// How many bytes the end of a line has that has a number.
fn number_size(n: u32) -> usize
    ensures { (result ≤ 12) × (result ≡ length (number_end n)) }
{
    2 + text::digits(n)
}

// A space, a number in decimal and a line feed written at `at`.
fn put_number(n: u32, out: &mut [u8], at: usize)
    requires { at + length (number_end n) ≤ length out.old }
    ensures { out.new ≡ written at (number_end n) out.old }
{
    let k = text::digits(n);
    field::put_u8(out, at, b' ');
    text::put_decimal(n, out, at + 1);
    field::put_u8(out, at + 1 + k, b'\n');
}

fn answer_size(n: u32) -> usize
    ensures { (result ≤ 18) × (result ≡ length (answer_line n)) }
{
    6 + number_size(n)
}

// "writes "answer " and the number"
fn put_answer(n: u32, out: &mut [u8])
    requires { length (answer_line n) ≤ length out.old }
    ensures { out.new ≡ written 0 (answer_line n) out.old }
{
    field::put_bytes(out, 0, b"answer");
    put_number(n, out, 6);
}

// How many bytes the line of a node has.
fn line_size(x: Node) -> usize
    ensures { LineSize x result }
{
    let d = spans::length_of(x.dir);
    let f = spans::length_of(x.file);
    if f == 0 {
        return d + 2;
    }
    d + 1 + f + number_size(x.number)
}

// How many bytes the lines of a tree have.
fn lines_size(t: &Table) -> usize
    requires { length (live t.now) ≤ table_room }
    ensures { LinesSize t.now result }
{
    let mut size: usize = 0;
    for x in t.nodes.as_slice() {
        size += line_size(*x);
    }
    size
}

// ""name/" for each directory and "name/file number" in decimal for each file […], a line feed after each line"
fn put_line(src: &[u8], x: Node, out: &mut [u8], at: usize)
    requires { SoundNode src.now x × (at + length (listing_line (node_of src.now x)) ≤ length out.old) }
    ensures { out.new ≡ written at (listing_line (node_of src.now x)) out.old }
{
    let d = spans::length_of(x.dir);
    let f = spans::length_of(x.file);
    names::put_name(src, x.dir, out, at);
    let p = at + d;
    if f == 0 {
        field::put_bytes(out, p, b"/\n");
        return;
    }
    field::put_u8(out, p, b'/');
    names::put_name(src, x.file, out, p + 1);
    put_number(x.number, out, p + 1 + f);
}

// The lines of a tree, "in image order".
fn put_lines(src: &[u8], t: &Table, out: &mut [u8], at: usize)
    requires { SoundTable src.now t.now × (at + length (lines_of (map_of src.now t.now)) ≤ length out.old) }
    ensures { out.new ≡ written at (lines_of (map_of src.now t.now)) out.old }
{
    let mut p = at;
    for x in t.nodes.as_slice() {
        put_line(src, *x, out, p);
        p += line_size(*x);
    }
}

// The number's line and the lines of a tree, written whole, or not at all where they have no room. The answer is how many bytes were written.
fn put_text(src: &[u8], number: u32, t: &Table, out: &mut [u8]) -> Option<usize>
    requires { SoundTable src.now t.now }
    ensures { Writes (text_of number (map_of src.now t.now)) out.old out.new result }
{
    let a = answer_size(number);
    let n = a + lines_size(t);
    if out.len() < n {
        return None;
    }
    put_answer(number, out);
    put_lines(src, t, out, a);
    Some(n)
}

// An image is recovered: "answer " and the number; "after 0 follow" the directories and files that recovery leaves. No text is longer than
// 19,113 bytes (specs/Room.antt).
pub fn listing(image: &[u8], out: &mut [u8]) -> Option<usize>
    ensures { Writes (listing image.now) out.old out.new result }
{
    let Some(decoded) = decode::decode(image) else {
        return put_text(image, u32::from(Refusal::InvalidImage), &Table::new(), out);
    };
    match recovery::recover(image, decoded.store, None) {
        Ok(recovered) => put_text(image, 0, &recovered.run.store.tree, out),
        Err(refusal) => put_text(image, u32::from(refusal), &Table::new(), out),
    }
}
