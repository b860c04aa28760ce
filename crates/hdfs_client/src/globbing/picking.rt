//! Which entries of a directory a component of a pattern names, and what it names without wildcards.
ghost use Rattle.std.specs.Prelude.{◌≡◌, ◌≢◌, ◌∷◌, ◌++◌, ◌↔◌, ◌≤◌, ◌<◌, ◌+◌, ℕ, [], true, map, Some, IfSome, IfNone, IfOk, IfErr, OnOk, IsTrue, false, chars, string_bytes, vec_len};
ghost use Rattle.std.specs.Prelude.{List as Items};
ghost use Rattle.std.specs.Prelude.{◌||◌, ◌⊎◌, None, bytes_eq};
ghost use Rattle.hdfs_cluster.specs.declared.errors.HdfsError.TheVariants as errors;
ghost use Rattle.hdfs_client.specs.declared.errors.ClientError.TheVariants as client_errors;
ghost use Rattle.hdfs_cluster.specs.Namenode.{not_found, parent_not_directory};
ghost use Rattle.hdfs_globs.specs.Escapes.{components};
ghost use Rattle.hdfs_globs.specs.Patterns.{IsPatternOf};
ghost use Rattle.hdfs_client.specs.Globbing.{IsDeclined, IsTaken, IsWanted, Picks, finds_none, is_missing, is_wild, named_in, texts_of};
ghost use Rattle.hdfs_client.specs.Listing.{IsPutFault};
ghost use Rattle.hdfs_client.specs.Statuses.{or_root};

use crate::errors::ClientError;
use crate::status::FileStatus;
use hdfs_cluster::HdfsError;
use hdfs_globs::{GlobPattern, expand_glob, get_path_components, unescape_component};
use hdfs_wire::{NoMemory, Text};
use std::alloc::Global;

/// The classes of the exceptions that tell that nothing stands at a path.
const MISSING: [&str; 2] = [
    "java.io.FileNotFoundException",
    "org.apache.hadoop.fs.ParentNotDirectoryException",
];

/// Whether an exception of this class tells that nothing stands at a path.
fn is_missing_class(class: &str) -> bool
    ensures { result ≡ (bytes_eq class.now not_found || bytes_eq class.now parent_not_directory) }
{
    class == MISSING[0] || class == MISSING[1]
}

/// Whether an error tells that nothing stands at a path.
fn is_missing(error: &HdfsError) -> bool
    ensures { result ≡ is_missing error.now }
{
    match error {
        HdfsError::FileNotFound(_) => true,
        HdfsError::RPCError(class, _) => is_missing_class(class.as_str()),
        _ => false,
    }
}

/// Whether an error of a client tells so.
fn finds_none(error: &ClientError) -> bool
    ensures { result ≡ finds_none error.now }
{
    match error {
        ClientError::Hdfs(error) => is_missing(error),
        _ => false,
    }
}

/// Nothing, where an error tells that nothing stands there; else the error.
pub(super) fn none_or(alloc: Global, error: ClientError) -> Result<Vec<FileStatus>, ClientError>
    ensures ok { IfOk result (λ found. (found.items ≡ []) × (finds_none error ≡ true)) }
    ensures err { IfErr result (λ e. (e ≡ error) × (finds_none error ≡ false)) }
{
    if finds_none(&error) {
        drop(error);
        return Ok(Vec::new(alloc));
    }
    Err(error)
}

/// What is taken of a look-up.
pub(super) fn taken(
    alloc: Global,
    looked: Result<FileStatus, HdfsError>,
) -> Result<Vec<FileStatus>, ClientError>
    ensures ok { IfOk result (λ found. IsTaken looked found.items) }
    ensures err { IfErr result (λ error. (error ≡ client_errors.Hdfs errors.NoMemory) ⊎ IsDeclined looked error) }
{
    match looked {
        Ok(status) => Ok(one(alloc, status)?),
        Err(error) => none_or(alloc, ClientError::Hdfs(error)),
    }
}

/// The one status.
fn one(alloc: Global, status: FileStatus) -> Result<Vec<FileStatus>, NoMemory>
    ensures { IfOk result (λ found. found.items ≡ status ∷ []) }
{
    let mut found = Vec::new(alloc);
    found.push(status)?;
    Ok(found)
}

/// The components of a text.
pub(super) fn parts_of(alloc: Global, text: &str) -> Result<Vec<Text>, NoMemory>
    ensures { IfOk result (λ parts. parts.items ≡ components text.now) }
{
    let mut parts = Vec::new(alloc);
    for piece in get_path_components(alloc, text)? {
        parts.push(Text::from_str(alloc, piece)?)?;
    }
    Ok(parts)
}

/// A directory as a path: the root is empty else.
pub(super) fn or_root(dir: &str) -> &str
    ensures { result.now ≡ or_root dir.now }
{
    if dir.is_empty() { "/" } else { dir }
}

/// What a component without wildcards names in a directory.
pub(super) fn named_in(alloc: Global, dir: &str, component: &str) -> Result<Text, NoMemory>
    ensures { IfOk result (λ path. path ≡ named_in dir.now component.now) }
{
    let name = unescape_component(alloc, component)?;
    in_directory(alloc, dir, name.as_str())
}

/// A name in a directory.
fn in_directory(alloc: Global, dir: &str, name: &str) -> Result<Text, NoMemory>
    ensures { IfOk result (λ path. path ≡ dir.now ++ 47 ∷ name.now) }
{
    Ok(Text::from_string(format!(in alloc; "{dir}/{name}")?))
}

/// The texts that a pattern opens to.
///
/// `InvalidPath`, with the pattern: it is none.
pub(super) fn texts_of(alloc: Global, pattern: &str) -> Result<Vec<Text>, ClientError>
    ensures ok { IfOk result (λ texts. texts_of pattern.now ≡ Some texts.items) }
    ensures refused { IfErr result (λ error. (error ≡ client_errors.Hdfs errors.NoMemory)
        ⊎ ((error ≡ client_errors.Hdfs (errors.InvalidPath pattern.now)) × (texts_of pattern.now ≡ None))) }
{
    Ok(as_texts(alloc, expand_glob(alloc, pattern)?)?)
}

/// Strings as texts.
fn as_texts(alloc: Global, strings: Vec<String>) -> Result<Vec<Text>, NoMemory>
    ensures { IfOk result (λ texts. texts.items ≡ map string_bytes strings.items) }
{
    let mut texts = Vec::new(alloc);
    for string in strings {
        texts.push(Text::from_string(string))?;
    }
    Ok(texts)
}

/// The text behind the front of another, if that begins so.
fn behind<'a>(path: &'a str, front: &str) -> Option<&'a str>
    ensures some { IfSome result (λ rest. path.now ≡ front.now ++ rest.now) }
    ensures none { IfNone result ((rest : Items ℕ) → path.now ≢ front.now ++ rest) }
{
    path.strip_prefix(front)
}

/// The text behind a slash, if another begins with it.
fn behind_slash(path: &str) -> Option<&str>
    ensures some { IfSome result (λ rest. path.now ≡ 47 ∷ rest.now) }
    ensures none { IfNone result ((rest : Items ℕ) → path.now ≢ 47 ∷ rest) }
{
    path.strip_prefix('/')
}

/// The name of what stands at a path in a directory, if it is one of its entries.
fn name_in<'a>(dir: &str, path: &'a str) -> Option<&'a str>
    ensures some { IfSome result (λ name. (path.now ≡ dir.now ++ 47 ∷ name.now) × (name.now ≢ [])) }
    ensures none { IfNone result ((name : Items ℕ) → path.now ≡ dir.now ++ 47 ∷ name → name ≡ []) }
{
    let name = behind_slash(behind(path, dir)?)?;
    if name.is_empty() {
        return None;
    }
    Some(name)
}

/// Whether an entry of a directory is wanted.
fn is_wanted(
    alloc: Global,
    dir: &str,
    component: &str,
    glob: &GlobPattern,
    follow: bool,
    status: &FileStatus,
) -> Result<bool, NoMemory>
    requires { IsPatternOf (chars component.now) glob.now }
    ensures { IfOk result (λ wanted. IsTrue wanted ↔ IsWanted follow dir.now component.now status.now) }
{
    if follow && !status.isdir {
        return Ok(false);
    }
    match name_in(dir, status.path.as_str()) {
        Some(name) => glob.matches(alloc, name),
        None => Ok(false),
    }
}

/// Whether a wildcard stands in a component.
pub(super) fn is_wild(component: &str, glob: &GlobPattern) -> bool
    requires { IsPatternOf (chars component.now) glob.now }
    ensures { result ≡ is_wild component.now }
{
    glob.has_wildcard()
}

/// The entries of a directory that are wanted.
pub(super) fn picked(
    alloc: Global,
    own: Vec<FileStatus>,
    dir: &str,
    component: &str,
    glob: &GlobPattern,
    follow: bool,
) -> Result<Vec<FileStatus>, NoMemory>
    requires { IsPatternOf (chars component.now) glob.now }
    ensures { IfOk result (λ found. Picks (IsWanted follow dir.now component.now) own.items found.items) }
{
    let mut found = Vec::new(alloc);
    for status in own {
        if is_wanted(alloc, dir, component, glob, follow, &status)? {
            found.push(status)?;
        }
    }
    Ok(found)
}

/// Their paths.
pub(super) fn paths_of(alloc: Global, found: Vec<FileStatus>) -> Result<Vec<Text>, NoMemory>
    ensures { IfOk result (λ paths. paths.items ≡ map (λ status. status.path) found.items) }
{
    let mut paths = Vec::new(alloc);
    for status in found {
        paths.push(status.path)?;
    }
    Ok(paths)
}

/// Puts all of these behind others, unless they are more than is allowed.
pub(super) fn put_all(
    found: &mut Vec<FileStatus>,
    mut more: Vec<FileStatus>,
    limit: u64,
) -> Result<(), ClientError>
    requires { vec_len found.old ≤ limit }
    ensures put { OnOk result (found.new.items ≡ found.old.items ++ more.items) }
    ensures count { OnOk result (vec_len found.new ≤ limit) }
    ensures err { IfErr result (IsPutFault limit (limit < vec_len found.old + vec_len more)) }
{
    if more.len() as u64 > limit - found.len() as u64 {
        return Err(ClientError::TooMany { limit });
    }
    found.append(&mut more)?;
    Ok(())
}
