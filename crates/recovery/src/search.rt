// The search for a backup: `has_backup_files` of recovery.rs, in the order of 02, item 2, "The search for backups shall look through the files of
// all collections first and at the directories' own names afterwards."
ghost use Rattle.std.specs.Prelude.{◌≡◌};
ghost use Rattle.model.specs.Store.{is_backup_file, in_backup_directory, has_backup_files};
ghost use Rattle.store.specs.Tables.{map_of, SoundTable};
ghost use Rattle.recovery.specs.Searches.{FirstOf, FindsBackup};

use spans::NameRef;
use store::{Node, Table};

// What the search meets: 02, item 2, "With a yes it names its hit".
#[derive(Clone, Copy, Debug, PartialEq, Eq)]
pub enum BackupHit {
    File(Node),
    Directory(NameRef),
}

// The first backup file. 01, Listings and file steps: "The search for a backup leaves both walks at the first hit": two loops, the outer one labelled.
fn first_backup_file(src: &[u8], t: &Table) -> Option<Node>
    requires { SoundTable src.now t.now }
    ensures { FirstOf is_backup_file src.now (map_of src.now t.now) result }
{
    let nodes = t.nodes.as_slice();
    let mut i: usize = 0;
    'directories: while i < nodes.len() {
        let dir = nodes[i].dir;
        // The nodes of this directory: its own, whose file name is empty, and those of its files.
        while i < nodes.len() {
            let x = nodes[i];
            if !spans::same(src, dir, x.dir) {
                break;
            }
            if spans::is_backup(src, x.file) {
                break 'directories;
            }
            i += 1;
        }
    }
    if i < nodes.len() {
        Some(nodes[i])
    } else {
        None
    }
}

// The first directory with a backup's name, by a node of it.
fn first_backup_directory(src: &[u8], t: &Table) -> Option<Node>
    requires { SoundTable src.now t.now }
    ensures { FirstOf in_backup_directory src.now (map_of src.now t.now) result }
{
    t.nodes
        .iter()
        .find(|x| spans::is_backup(src, x.dir))
        .copied()
}

// 02, item 2: "the first backup file in image order, or if no file is one the first directory with a backup's name".
pub fn find_backup(src: &[u8], t: &Table) -> Option<BackupHit>
    requires { SoundTable src.now t.now }
    ensures { FindsBackup src.now (map_of src.now t.now) result }
{
    if let Some(x) = first_backup_file(src, t) {
        return Some(BackupHit::File(x));
    }
    first_backup_directory(src, t).map(|x| BackupHit::Directory(x.dir))
}

// Whether any backup stands.
pub fn has_backup_files(src: &[u8], t: &Table) -> bool
    requires { SoundTable src.now t.now }
    ensures { result ≡ has_backup_files (map_of src.now t.now) }
{
    find_backup(src, t).is_some()
}
