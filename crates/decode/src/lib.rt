// A store image, read in one pass: 01, How a store is handed over. The names of the store are parts of the image.
// Which of the two listings is read is a flag, `staged`, as in the definitions (laws/specs/ImageLaws.antt, `listed`): an enum of two would have to be
// turned into that flag in every clause.
#![tactic(auto)]

ghost use Rattle.std.specs.Prelude.{◌≡◌, [], true, false, ◌≤◌, eqb, length};
ghost use Rattle.basics.specs.Limits.{image_room};
ghost use Rattle.spans.specs.Spans.{name_of, Sound};
ghost use Rattle.decode.specs.Reading.{Comes};
ghost use Rattle.decode.specs.Listing.{file_tag, own, files_of, is_below};
ghost use Rattle.decode.specs.Spots.{SoundSpot, Gives, AtField, InDir};
ghost use Rattle.decode.specs.Decoding.{ReadsNodes, ReadsLog, ReadsMark, Decodes};

use field::Item;
use spans::{EMPTY, NameRef};
use store::{LogRef, Node, Store, Table};

// How far a listing is read: its last node, the place behind it, and how many directories and files it has.
#[derive(Clone, Copy, Debug, PartialEq, Eq)]
pub struct Spot {
    pub node: Node,
    pub next: usize,
    pub dirs: usize,
    pub files: usize,
}

// The store of an image, and where its tree ends.
#[derive(Clone, Copy)]
pub struct Decoded {
    pub store: Store,
    pub tree_end: usize,
}

fn file_limit(staged: bool) -> usize
    ensures { result ≡ files_of staged }
{
    if staged {
        basics::STAGING_LIMIT
    } else {
        basics::FILE_LIMIT
    }
}

// Whether a name may stand before another: "ascending", "No name twice in a directory."
fn is_below(src: &[u8], a: NameRef, b: NameRef) -> bool
    requires { Sound src.now a × Sound src.now b }
    ensures { result ≡ is_below (name_of src.now a) (name_of src.now b) }
{
    spans::compare(src, a, b).is_lt()
}

// The field at a place, if it has this tag.
fn tagged(src: &[u8], at: usize, tag: u8) -> Option<Item>
    ensures { Comes (λ t. eqb t tag) src.now at result }
{
    field::read_field(src, at).ok().filter(|x| x.tag == tag)
}

// Whether a tag is one of a listing: of the directories with their files, or of the staging files.
fn is_own(staged: bool, tag: u8) -> bool
    ensures { result ≡ own staged tag }
{
    if staged {
        tag == 0x12
    } else {
        tag == 0x10 || tag == 0x11
    }
}

// The field at a place, if it is one of the listing.
fn listed(src: &[u8], at: usize, staged: bool) -> Option<Item>
    ensures { Comes (own staged) src.now at result }
{
    field::read_field(src, at)
        .ok()
        .filter(|x| is_own(staged, x.tag))
}

// A directory: "0x10 (name)".
fn dir_at(src: &[u8], last: Spot, x: Item) -> Option<Spot>
    requires { AtField false src.now last x 0x10 }
    ensures { Gives false src.now last result }
{
    if basics::DIR_LIMIT <= last.dirs {
        return None;
    }
    if !paths::sanitize_path_segment(&src[x.start..x.end]) {
        return None;
    }
    let name = spans::span(src, x.start, x.end - x.start);
    if !is_below(src, last.node.dir, name) {
        return None;
    }
    Some(Spot {
        node: Node {
            dir: name,
            file: EMPTY,
            number: 0,
        },
        next: x.end,
        dirs: last.dirs + 1,
        files: last.files,
    })
}

// A file in the directory that was read last, "0x11 (number, name)", or a staging file, "0x12 (number, name)".
fn file_at(src: &[u8], last: Spot, x: Item, staged: bool) -> Option<Spot>
    requires { AtField staged src.now last x (file_tag staged) × InDir staged (name_of src.now last.node.dir) }
    ensures { Gives staged src.now last result }
{
    if file_limit(staged) <= last.files || x.end - x.start < 4 {
        return None;
    }
    let number = field::u32_at(src, x.start);
    let begin = x.start + 4;
    if number == 0 || !paths::sanitize_path_segment(&src[begin..x.end]) {
        return None;
    }
    let name = spans::span(src, begin, x.end - begin);
    if !is_below(src, last.node.file, name) {
        return None;
    }
    Some(Spot {
        node: Node {
            dir: last.node.dir,
            file: name,
            number,
        },
        next: x.end,
        dirs: last.dirs,
        files: last.files + 1,
    })
}

// The node that a field of the listing gives behind the last one, if it may follow.
fn node_of(src: &[u8], last: Spot, x: Item, staged: bool) -> Option<Spot>
    requires { AtField staged src.now last x x.tag × (own staged x.tag ≡ true) }
    ensures { Gives staged src.now last result }
{
    if x.tag == 0x10 {
        return dir_at(src, last, x);
    }
    if x.tag == 0x11 && spans::length_of(last.node.dir) == 0 {
        return None;
    }
    file_at(src, last, x, staged)
}

// The listing that stands at a place, the directories with their files or the staging files, read into an empty table, and the place behind it. Its
// nodes come in ascending order, so each is stored behind the one before. The table is lent, so that it is laid down once and not handed on.
fn read_nodes(src: &[u8], at: usize, staged: bool, table: &mut Table) -> Option<usize>
    requires { ((length src.now ≤ image_room) × (at ≤ length src.now)) × (table.old.nodes.items ≡ []) }
    ensures { ReadsNodes staged src.now at table.new result }
{
    let mut last = Spot {
        node: Node::default(),
        next: at,
        dirs: 0,
        files: 0,
    };
    // The next field stands where the last one ended, so no `for` counts the places.
    while let Some(x) = listed(src, last.next, staged) {
        last = node_of(src, last, x, staged)?;
        table.nodes.push(last.node);
    }
    Some(last.next)
}

// "the log, 0x13, absent if there is none", and the place behind it.
fn read_log(src: &[u8], at: usize) -> Option<(Option<LogRef>, usize)>
    requires { (length src.now ≤ image_room) × (at ≤ length src.now) }
    ensures { ReadsLog src.now at result }
{
    let Some(x) = tagged(src, at, 0x13) else {
        return Some((None, at));
    };
    let len = x.end - x.start;
    if basics::LOG_LIMIT < len {
        return None;
    }
    let log = LogRef {
        start: x.start as u16,
        len: len as u16,
        rewritten: None,
    };
    Some((Some(log), x.end))
}

// "0x14 of length 0 if a transaction is open", and the place behind it.
fn read_mark(src: &[u8], at: usize) -> Option<(bool, usize)>
    requires { at ≤ length src.now }
    ensures { ReadsMark src.now at result }
{
    let Some(x) = tagged(src, at, 0x14) else {
        return Some((false, at));
    };
    if x.start < x.end {
        return None;
    }
    Some((true, x.end))
}

// "A store image is, in this order": each part behind the one before, and nothing behind the last.
fn read_image(src: &[u8]) -> Option<Decoded>
    requires { length src.now ≤ image_room }
    ensures { Decodes src.now result }
{
    let mut tree = Table::new();
    let tree_end = read_nodes(src, 0, false, &mut tree)?;
    let mut staging = Table::new();
    let staging_end = read_nodes(src, tree_end, true, &mut staging)?;
    let (log, log_end) = read_log(src, staging_end)?;
    let (open_mark, end) = read_mark(src, log_end)?;
    let store = Store {
        tree,
        staging,
        log,
        open_mark,
    };
    (end == src.len()).then_some(Decoded { store, tree_end })
}

// The store of an image (01, Sixteen numbers, 1). A longer image than any store's is refused at once.
pub fn decode(src: &[u8]) -> Option<Decoded>
    ensures { Decodes src.now result }
{
    if basics::IMAGE_ROOM < src.len() {
        return None;
    }
    read_image(src)
}
