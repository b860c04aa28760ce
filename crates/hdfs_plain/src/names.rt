//! Paths: which lie below others, and in which order a walk comes by them. All of it is slow and plain.
ghost use Rattle.std.specs.Prelude.{◌≡◌, [], ◌∷◌, ◌++◌, ℕ, true, false, List, length, take, filter, string_bytes, IfOk, OnOk};
ghost use Rattle.std.specs.List.{list_any};
ghost use Rattle.std.specs.Str.{bytes_eq};
ghost use Rattle.hdfs_cluster.specs.Names.{front_of, is_within};
ghost use Rattle.hdfs_model.specs.Walks as walks;
ghost use Rattle.hdfs_model.specs.Walks.{in_order, is_listed, put_path};

use hdfs_wire::{NoMemory, Text};
use std::alloc::Global;

/// A path and a slash, with which what lies below it begins.
pub(crate) fn below_front(alloc: Global, path: &str) -> Result<String, NoMemory>
    ensures { IfOk result (λ front. string_bytes front ≡ path.now ++ 47 ∷ []) }
{
    let mut front = String::from_str(alloc, path)?;
    front.push_str("/")?;
    Ok(front)
}

/// What the paths in a directory begin with: the directory and a slash, or the root.
pub(crate) fn directory_front(alloc: Global, dir: &str) -> Result<String, NoMemory>
    ensures { IfOk result (λ front. string_bytes front ≡ front_of dir.now) }
{
    if dir == "/" {
        return Ok(String::from_str(alloc, dir)?);
    }
    Ok(below_front(alloc, dir)?)
}

/// Whether a path begins so.
pub(crate) fn begins_with(path: &[u8], front: &[u8]) -> bool
    ensures { result ≡ bytes_eq front.now (take (length front.now) path.now) }
{
    front.len() <= path.len() && &path[..front.len()] == front
}

/// Whether a path is this one, or lies below it, where `front` is this one and a slash.
pub(crate) fn is_path_within(top: &str, front: &str, path: &str) -> bool
    requires { front.now ≡ top.now ++ 47 ∷ [] }
    ensures { result ≡ is_within top.now path.now }
{
    path == top || begins_with(path.as_bytes(), front.as_bytes())
}

/// Whether one of these paths begins so.
pub(crate) fn some_begin_with(paths: &[Text], front: &str) -> bool
    ensures { result ≡ list_any (λ path. bytes_eq front.now (take (length front.now) path)) paths.now }
{
    for path in paths {
        if begins_with(path.as_str().as_bytes(), front.as_bytes()) {
            return true;
        }
    }
    false
}

// Where a byte stands among the others: a slash before all of them.
fn rank(byte: u8) -> u16
    ensures { result ≡ walks.rank byte }
{
    if byte == b'/' { 0 } else { byte as u16 + 1 }
}

/// Whether one path comes before another in a walk.
pub(crate) fn comes_before(a: &[u8], b: &[u8]) -> bool
    ensures { result ≡ walks.comes_before a.now b.now }
{
    let mut at = 0;
    'bytes: while at < a.len() && at < b.len() {
        if a[at] != b[at] {
            return rank(a[at]) < rank(b[at]);
        }
        at += 1;
    }
    a.len() < b.len()
}

/// Puts a path among others that are in the order of a walk, each once.
pub(crate) fn put_in_order(alloc: Global, found: &mut Vec<Text>, path: &str) -> Result<(), NoMemory>
    ensures { OnOk result (found.new.items ≡ put_path path.now found.old.items) }
{
    'places: for at in 0..found.len() {
        let other = found[at].as_str();
        if comes_before(path.as_bytes(), other.as_bytes()) {
            found.insert(at, Text::from_str(alloc, path)?)?;
            return Ok(());
        }
        if path == other {
            return Ok(());
        }
    }
    found.push(Text::from_str(alloc, path)?)?;
    Ok(())
}

/// Whether a path is listed with the directory whose paths begin with `front`.
pub(crate) fn is_path_listed(recursive: bool, front: &str, path: &str) -> bool
    requires { (dir : List ℕ) × (front.now ≡ front_of dir) }
    ensures { (dir : List ℕ) → front.now ≡ front_of dir → result ≡ is_listed recursive dir path.now }
{
    let path = path.as_bytes();
    if !begins_with(path, front.as_bytes()) {
        return false;
    }
    let rest = &path[front.len()..];
    !rest.is_empty() && (recursive || !rest.contains(&b'/'))
}

/// Those of some paths that are listed with a directory, in the order of a walk.
pub(crate) fn walk(
    alloc: Global,
    paths: &[Text],
    dir: &str,
    recursive: bool,
) -> Result<Vec<Text>, NoMemory>
    ensures { IfOk result (λ found. found.items ≡ in_order (filter (is_listed recursive dir.now) paths.now)) }
{
    let front = directory_front(alloc, dir)?;
    let mut found = Vec::new(alloc);
    let mut left = paths.len();
    'paths: while left > 0 {
        left -= 1;
        if is_path_listed(recursive, front.as_str(), paths[left].as_str()) {
            put_in_order(alloc, &mut found, paths[left].as_str())?;
        }
    }
    Ok(found)
}
