// The nodes of a store, its log and its mark. A table's nodes are in the order of their keys, so each is found by halving.
#![tactic(auto)]

ghost use Rattle.std.specs.Prelude.{◌≡◌, ◌+◌, [], true, false, nat_eq};
ghost use Rattle.basics.specs.Order.{cmp_key};
ghost use Rattle.basics.specs.Map.{look, del};
ghost use Rattle.basics.specs.Base.{Bytes, is_some, if_empty};
ghost use Rattle.model.specs.Store.{dirs, files, staging_names};
ghost use Rattle.model.specs.Step.{remove_dir, rename_dir};
ghost use Rattle.paths.specs.Compare.{order_of};
ghost use Rattle.spans.specs.Spans.{name_of, length_of, Sound};
ghost use Rattle.store.specs.Places.{put_in};
ghost use Rattle.store.specs.Nodes.{is_dir};
ghost use Rattle.store.specs.Tables.{key_of, node_of, map_of, SoundNode, SoundTable, Holds, Finds, held_of, Counted, FilesFrom, Lists};

use basics::Status;
use fixed_vec::FixedVec;
use spans::NameRef;
use std::cmp::Ordering;
use std::mem;
use std::ops::Range;

// 01, How a store is handed over: "At most 16 directories, 128 files"; and one node more, so that a put within these limits has room.
pub const ROOM: usize = 145;

// A directory's own node has the empty file name and number 0; a staging file's has the empty directory name. So both tables are one kind of map in
// the order of an image, with one search and one set of laws, and no node needs a kind beside its key.
#[derive(Clone, Copy, Debug, Default, PartialEq, Eq)]
pub struct Node {
    pub dir: NameRef,
    pub file: NameRef,
    pub number: u32,
}

impl Node {
    // Whether it is a directory's own.
    pub fn is_dir(&self) -> bool
        ensures by_length { result ≡ nat_eq (length_of self.now.file) 0 }
        ensures by_key { (src : Bytes) → SoundNode src self.now → result ≡ is_dir (node_of src self.now) }
    {
        spans::length_of(self.file) == 0
    }
}

// Names as they are listed where a walk starts: 01, Listings and file steps, "A directory is listed as it stands when its walk starts".
pub type Listing = FixedVec<NameRef, ROOM>;

#[derive(Clone, Copy, Debug, PartialEq, Eq)]
pub struct Counts {
    pub dirs: usize,
    pub files: usize,
}

// Its names lie in bytes that each function is lent, and not in the table: a table that was read from an image is also used over a buffer in which
// further names stand behind the image.
#[derive(Clone, Copy)]
pub struct Table {
    pub nodes: FixedVec<Node, ROOM>,
}

// The log's bytes as a part of the lent bytes; `rewritten` is the status that its header was rewritten with, if it was.
#[derive(Clone, Copy, Debug, PartialEq, Eq)]
pub struct LogRef {
    pub start: u16,
    pub len: u16,
    pub rewritten: Option<Status>,
}

impl LogRef {
    // Where its bytes stand.
    pub fn range(self) -> Range<usize>
        ensures { result ≡ record { start = self.start; end = self.start + self.len } }
    {
        let start = usize::from(self.start);
        start..start + usize::from(self.len)
    }
}

// A store: the tree, the staging files, the log if one stands, the mark.
#[derive(Clone, Copy)]
pub struct Store {
    pub tree: Table,
    pub staging: Table,
    pub log: Option<LogRef>,
    pub open_mark: bool,
}

// The order of two keys: by directory, then by file.
fn compare_keys(src: &[u8], d: NameRef, f: NameRef, e: NameRef, g: NameRef) -> Ordering
    requires { (Sound src.now d × Sound src.now f) × (Sound src.now e × Sound src.now g) }
    ensures { order_of result ≡ cmp_key (key_of src.now d f) (key_of src.now e g) }
{
    spans::compare(src, d, e).then_with(|| spans::compare(src, f, g))
}

impl Table {
    // A table without nodes.
    pub fn new() -> Table
        ensures { result.nodes.items ≡ [] }
    {
        Table {
            nodes: FixedVec::new(),
        }
    }

    // Where a key stands, or the place that it has among the others. By hand: std's search asks for an order of any two nodes, and names are
    // compared only where they lie in the bytes.
    pub fn find(&self, src: &[u8], dir: NameRef, file: NameRef) -> Result<usize, usize>
        requires { SoundTable src.now self.now × (Sound src.now dir × Sound src.now file) }
        ensures { Finds (key_of src.now dir file) (map_of src.now self.now) result }
    {
        let nodes = self.nodes.as_slice();
        let mut lo: usize = 0;
        let mut hi: usize = nodes.len();
        while lo < hi {
            let mid = lo + (hi - lo) / 2;
            let x = nodes[mid];
            match compare_keys(src, dir, file, x.dir, x.file) {
                Ordering::Less => {
                    hi = mid;
                }
                Ordering::Equal => {
                    return Ok(mid);
                }
                Ordering::Greater => {
                    lo = mid + 1;
                }
            }
        }
        Err(lo)
    }

    // The number that stands at a key.
    pub fn look(&self, src: &[u8], dir: NameRef, file: NameRef) -> Option<u32>
        requires { SoundTable src.now self.now × (Sound src.now dir × Sound src.now file) }
        ensures { held_of result ≡ look (key_of src.now dir file) (map_of src.now self.now) }
    {
        let i = self.find(src, dir, file).ok()?;
        Some(self.nodes[i].number)
    }

    // Whether a place holds something.
    pub fn exists(&self, src: &[u8], dir: NameRef, file: NameRef) -> bool
        requires { SoundTable src.now self.now × (Sound src.now dir × Sound src.now file) }
        ensures { result ≡ is_some (look (key_of src.now dir file) (map_of src.now self.now)) }
    {
        self.look(src, dir, file).is_some()
    }

    // Whether a directory stands.
    pub fn dir_exists(&self, src: &[u8], dir: NameRef) -> bool
        requires { SoundTable src.now self.now × Sound src.now dir }
        ensures { result ≡ is_some (look (name_of src.now dir, []) (map_of src.now self.now)) }
    {
        self.exists(src, dir, spans::EMPTY)
    }

    // A node put in, in place of one with the same key. A full table stays as it is.
    pub fn put(&mut self, src: &[u8], x: Node)
        requires { SoundTable src.now self.old × SoundNode src.now x }
        ensures { Holds src.now self.new (put_in (key_of src.now x.dir x.file) x.number (map_of src.now self.old)) }
    {
        if self.nodes.is_full() {
            return;
        }
        let found = self.find(src, x.dir, x.file);
        match found {
            Ok(i) => self.nodes.set(i, x),
            Err(i) => self.nodes.insert(i, x),
        }
    }

    // The node at a key taken out.
    pub fn del(&mut self, src: &[u8], dir: NameRef, file: NameRef)
        requires { SoundTable src.now self.old × (Sound src.now dir × Sound src.now file) }
        ensures { Holds src.now self.new (del (key_of src.now dir file) (map_of src.now self.old)) }
    {
        let found = self.find(src, dir, file);
        if let Ok(i) = found {
            self.nodes.remove(i);
        }
    }

    // The table without a directory and its files. By hand: `retain` asks for a closure that may be called at any node, and names are compared only
    // where they lie in the bytes.
    fn without_dir(&self, src: &[u8], dir: NameRef) -> Table
        requires { SoundTable src.now self.now × Sound src.now dir }
        ensures { Holds src.now result (remove_dir (name_of src.now dir) (map_of src.now self.now)) }
    {
        let mut kept = Table::new();
        for x in self.nodes.as_slice() {
            if !spans::same(src, dir, x.dir) {
                kept.nodes.push(*x);
            }
        }
        kept
    }

    // A directory and its files taken out (step 0x29).
    pub fn remove_dir(&mut self, src: &[u8], dir: NameRef)
        requires { SoundTable src.now self.old × Sound src.now dir }
        ensures { Holds src.now self.new (remove_dir (name_of src.now dir) (map_of src.now self.old)) }
    {
        *self = self.without_dir(src, dir);
    }

    // A directory renamed (step 0x26). What stands in the other directory stays, but for files of the same names.
    pub fn rename_dir(&mut self, src: &[u8], from: NameRef, to: NameRef)
        requires { SoundTable src.now self.old × (Sound src.now from × Sound src.now to) }
        ensures { Holds src.now self.new (rename_dir (name_of src.now from) (name_of src.now to) (map_of src.now self.old) (map_of src.now self.old)) }
    {
        let kept = self.without_dir(src, from);
        let old = mem::replace(self, kept);
        for x in old.nodes.as_slice() {
            if spans::same(src, from, x.dir) {
                let moved = Node { dir: to, ..*x };
                self.put(src, moved);
            }
        }
    }

    // The place behind a directory's own, where its files start.
    fn files_from(&self, src: &[u8], dir: NameRef) -> usize
        requires { SoundTable src.now self.now × Sound src.now dir }
        ensures { FilesFrom (name_of src.now dir) (map_of src.now self.now) result }
    {
        let found = self.find(src, dir, spans::EMPTY);
        match found {
            Ok(i) => i + 1,
            Err(i) => i,
        }
    }

    // Whether a directory holds no file.
    pub fn is_dir_empty(&self, src: &[u8], dir: NameRef) -> bool
        requires { SoundTable src.now self.now × Sound src.now dir }
        ensures { result ≡ if_empty (files (name_of src.now dir) (map_of src.now self.now)) true false }
    {
        let i = self.files_from(src, dir);
        let next = self.nodes.get(i);
        next.is_none_or(|x| !spans::same(src, dir, x.dir))
    }

    // The three listings push in a loop: `collect` into a vector of fixed room answers a Result, with an error that cannot come here.

    // The files of a directory as they stand, "in ascending byte order". They stand one behind the other.
    pub fn files(&self, src: &[u8], dir: NameRef) -> Listing
        requires { SoundTable src.now self.now × Sound src.now dir }
        ensures { Lists src.now result (files (name_of src.now dir) (map_of src.now self.now)) }
    {
        let mut names = Listing::new();
        let from = self.files_from(src, dir);
        let rest = &self.nodes.as_slice()[from..];
        for x in rest {
            if !spans::same(src, dir, x.dir) {
                return names;
            }
            names.push(x.file);
        }
        names
    }

    // The directories as they stand.
    pub fn dirs(&self) -> Listing
        ensures { (src : Bytes) → SoundTable src self.now → Lists src result (dirs (map_of src self.now)) }
    {
        let mut names = Listing::new();
        for x in self.nodes.as_slice() {
            if x.is_dir() {
                names.push(x.dir);
            }
        }
        names
    }

    // The staging files as they stand.
    pub fn staged(&self) -> Listing
        ensures { (src : Bytes) → SoundTable src self.now → Lists src result (staging_names (map_of src self.now)) }
    {
        let mut names = Listing::new();
        for x in self.nodes.as_slice() {
            names.push(x.file);
        }
        names
    }

    // How many directories and how many files a table holds.
    pub fn count(&self) -> Counts
        ensures { (src : Bytes) → SoundTable src self.now → Counted (map_of src self.now) result }
    {
        let dirs = self.nodes.iter().filter(|x| x.is_dir()).count();
        Counts {
            dirs,
            files: self.nodes.len() - dirs,
        }
    }
}
