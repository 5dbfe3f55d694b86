//! Checks of paths, on their bytes.

ghost use Rattle.std.specs.Prelude.{◌≡◌, IsTrue, nat_eq};
ghost use Rattle.std.specs.List.{count_by, list_all, slice_split, starts_with};
ghost use Rattle.group_tree.specs.Path.{IsWellFormed, depth_of, is_dots, is_name, is_name_byte, is_root, is_slash};
ghost use Rattle.group_tree.specs.Path.{is_well_formed, names_of, parent_path, root_path};

use crate::path::{MAX_NAME, MAX_PATH};

/// Whether the path is that of the root.
pub fn is_root(path: &[u8]) -> bool
    ensures { result ≡ is_root path.now }
{
    path == b"/".as_slice()
}

// Whether the byte may appear in a name.
fn is_name_byte(byte: u8) -> bool
    ensures { result ≡ is_name_byte byte }
{
    32 < byte && byte < 127 && byte != b'/'
}

fn is_dots(name: &[u8]) -> bool
    ensures { result ≡ is_dots name.now }
{
    name == b".".as_slice() || name == b"..".as_slice()
}

fn has_name_bytes(name: &[u8]) -> bool
    ensures { result ≡ list_all is_name_byte name.now }
{
    name.iter().all(|byte| is_name_byte(*byte))
}

// Whether this is a valid name of a group below the root.
#[tactic(auto, unfolding(crate::specs::Path::is_name))]
fn is_name(name: &[u8]) -> bool
    ensures { result ≡ is_name name.now }
{
    1 <= name.len() && name.len() <= MAX_NAME && has_name_bytes(name) && !is_dots(name)
}

// Whether each part between the slashes is a valid name.
fn are_names(text: &[u8]) -> bool
    ensures { result ≡ list_all is_name (slice_split is_slash text.now) }
{
    text.split(|byte| *byte == b'/').all(|name| is_name(name))
}

// Whether each part after the leading slash is a valid name.
fn has_names(path: &[u8]) -> bool
    requires { IsTrue (starts_with nat_eq path.now root_path) }
    ensures { result ≡ list_all is_name (names_of path.now) }
{
    is_root(path) || are_names(&path[1..])
}

/// Whether the path is the root's, or a slash before each of its names, in at most 512 bytes.
#[tactic(auto, unfolding(crate::specs::Path::is_well_formed))]
pub fn is_well_formed(path: &[u8]) -> bool
    ensures { result ≡ is_well_formed path.now }
{
    path.len() <= MAX_PATH && path.starts_with(b"/") && has_names(path)
}

fn slashes(path: &[u8]) -> usize
    ensures { result ≡ count_by is_slash path.now }
{
    path.iter().filter(|byte| **byte == b'/').count()
}

/// How many names the path has.
pub fn depth(path: &[u8]) -> usize
    requires { IsWellFormed path.now }
    ensures { result ≡ depth_of path.now }
{
    if is_root(path) { 0 } else { slashes(path) }
}

/// The path without its last name. It is the root's path if there was at most one name.
pub fn parent_path(path: &[u8]) -> &[u8]
    ensures { result.now ≡ parent_path path.now }
{
    let mut end = path.len();
    while end > 0 && path[end - 1] != b'/' {
        end -= 1;
    }
    if end <= 1 { b"/" } else { &path[..end - 1] }
}
