//! Where a text is cut: at its first outer brace group that is closed and has an unescaped slash inside.

ghost use Rattle.std.specs.Prelude.{◌≡◌, ℕ, ◌+◌, ◌<◌, ◌≤◌, ◌^◌, ◌&&◌, ◌==◌, ◌∷◌, [], not, length, drop, IfOk, IfSome, Some, None};
ghost use Rattle.hdfs_globs.specs.Expansions.{behind, cut_from};
ghost use Rattle.hdfs_globs.specs.CutScans.{IsFound, depth_past};
ghost use Rattle.hdfs_globs.specs.GroupScans.{shown_texts};

use crate::characters::character_at;
use crate::group::{GroupText, read_group};
use hdfs_wire::NoMemory;
use std::alloc::Global;

/// The places at which the group begins and behind which it ends, and its alternatives without their backslashes.
#[derive(Drop)]
pub(crate) struct FoundCut {
    pub(crate) begins: usize,
    pub(crate) alternatives: Vec<Vec<char>>,
    pub(crate) after: usize,
}

/// Where a text is cut, that it stands for itself, or that an unescaped backslash ends it.
#[derive(Drop)]
pub(crate) enum Found {
    Cut(FoundCut),
    Whole,
    Escaping,
}

// How many groups are open behind the character.
fn depth_past(escaped: bool, depth: usize, c: char) -> usize
    requires { depth + 1 < 2 ^ 64 }
    ensures depth { result ≡ depth_past escaped depth c }
    ensures bound { result ≤ depth + 1 }
{
    if escaped {
        return depth;
    }
    match c {
        '{' => depth + 1,
        '}' => depth.saturating_sub(1),
        _ => depth,
    }
}

// Whether the character escapes the next.
fn escapes(escaped: bool, c: char) -> bool
    ensures { result ≡ (not escaped && (c == 92)) }
{
    !escaped && c == '\\'
}

// The group that begins here, where it is an outer one with a slash.
fn slashed_group(
    alloc: Global,
    text: &[char],
    at: usize,
    escaped: bool,
    depth: usize,
) -> Result<Option<GroupText>, NoMemory>
    requires { at < length text.now }
    ensures none { IfOk result (λ o. o ≡ None → (c : ℕ) → drop at text.now ≡ c ∷ drop (at + 1) text.now
        → cut_from escaped depth (drop at text.now)
        ≡ behind c (cut_from (not escaped && (c == 92)) (depth_past escaped depth c) (drop (at + 1) text.now))) }
    ensures some { IfOk result (λ o. IfSome o (λ g. cut_from escaped depth (drop at text.now)
        ≡ Some (record { before = []; alternatives = shown_texts g.alternatives; after = drop g.after text.now }))) }
    ensures within { IfOk result (λ o. IfSome o (λ g. g.after ≤ length text.now)) }
{
    if escaped || depth > 0 || character_at(text, at) != '{' {
        return Ok(None);
    }
    match read_group(alloc, text, at + 1)? {
        Some(group) => {
            if group.slash {
                return Ok(Some(group));
            }
            Ok(None)
        }
        None => Ok(None),
    }
}

/// Looks for the cut of the text.
pub(crate) fn find_cut(alloc: Global, text: &[char]) -> Result<Found, NoMemory>
    ensures { IfOk result (IsFound text.now) }
{
    let mut escaped = false;
    let mut depth = 0;
    for at in 0..text.len() {
        if let Some(group) = slashed_group(alloc, text, at, escaped, depth)? {
            let GroupText {
                alternatives,
                after,
                ..
            } = group;
            let begins = at;
            return Ok(Found::Cut(FoundCut {
                begins,
                alternatives,
                after,
            }));
        }
        let c = character_at(text, at);
        depth = depth_past(escaped, depth, c);
        escaped = escapes(escaped, c);
    }
    if escaped {
        return Ok(Found::Escaping);
    }
    Ok(Found::Whole)
}
