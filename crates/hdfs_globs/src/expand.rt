//! Patterns with brace groups, paths in pieces, and backslashes.

ghost use Rattle.std.specs.Prelude.{◌≡◌, ◌⊎◌, ◌<◌, ◌++◌, ◌∷◌, true, map, reverse, IfOk, IfErr, OnOk, Some, None, string_bytes};
ghost use Rattle.std.specs.Option.{option_map};
ghost use Rattle.std.specs.Str.{chars};
ghost use Rattle.hdfs_globs.specs.GroupScans.{shown_texts};
ghost use Rattle.hdfs_globs.specs.Escapes.{components, unescaped};
ghost use Rattle.hdfs_globs.specs.Expansions.{opens};
ghost use Rattle.hdfs_globs.specs.Openings.{KeepsWhole, all_nodes, child, shown_strings, shown_work, waiting};

use crate::characters::{characters_of, put_character, text_of};
use crate::cut::{Found, FoundCut, find_cut};
use crate::work::Work;
use hdfs_names::NamesFault;
use hdfs_wire::{NoMemory, Text};
use std::alloc::Global;

/// Opens a pattern: each outer brace group that is closed and has an unescaped slash inside, from the left, becomes a pattern
/// for each of its alternatives, with what stands before and behind it. In an alternative a backslash is dropped and the character
/// after it kept; the search goes on at the alternative's beginning. A pattern without such a group, the empty one too, opens to itself.
///
/// `InvalidPath`, with the given pattern: a text that it opens to ends in an unescaped backslash. So `a\` and `{/a}\` are refused.
/// A backslash that was kept of an alternative escapes what stands behind the group: `{/\\}\` opens to `/\\`, though a backslash
/// ends the pattern, and `{a/\\}` is refused, though none does. `NoMemory`: there was none.
pub fn expand_glob(alloc: Global, pattern: &str) -> Result<Vec<String>, NamesFault>
    ensures ok { IfOk result (λ v. opens (chars pattern.now) ≡ Some (map (λ s. chars (string_bytes s)) v.items)) }
    ensures refused { IfErr result (λ e. (e ≡ NamesFault.NoMemory)
        ⊎ ((e ≡ NamesFault.InvalidPath pattern.now) × (opens (chars pattern.now) ≡ None))) }
{
    match expand(alloc, characters_of(alloc, pattern)?)? {
        Some(texts) => Ok(texts),
        None => Err(NamesFault::InvalidPath(Text::from_str(alloc, pattern)?)),
    }
}

// What the pattern opens to, unless it is refused.
fn expand(alloc: Global, pattern: Vec<char>) -> Result<Option<Vec<String>>, NoMemory>
    ensures { IfOk result (λ o. opens pattern.items ≡ option_map (λ v. shown_strings v.items) o) }
{
    let mut texts = Vec::new(alloc);
    let mut stack = Vec::new(alloc);
    stack.push(Work::of_pattern(pattern))?;
    'opening: while let Some(work) = stack.pop() {
        if !open_next(alloc, work, &mut stack, &mut texts)? {
            return Ok(None);
        }
    }
    Ok(Some(texts))
}

// Opens one text: it is done, or its alternatives wait in its place, or it is refused.
fn open_next(
    alloc: Global,
    work: Work,
    stack: &mut Vec<Work>,
    texts: &mut Vec<String>,
) -> Result<bool, NoMemory>
    ensures opened { IfOk result (λ goes_on. KeepsWhole texts.old.items (shown_work work ∷ waiting stack.old)
        goes_on texts.new.items (waiting stack.new)) }
    ensures fewer { IfOk result (λ goes_on. goes_on ≡ true
        → all_nodes (waiting stack.new) < all_nodes (shown_work work ∷ waiting stack.old)) }
{
    match find_cut(alloc, &work.text[work.from..])? {
        Found::Cut(cut) => {
            let FoundCut {
                begins,
                alternatives,
                after,
            } = cut;
            let front = &work.text[..work.from + begins];
            let back = &work.text[work.from + after..];
            put_alternatives(alloc, stack, alternatives, front, back)?;
            Ok(true)
        }
        Found::Whole => {
            texts.push(text_of(alloc, &work.text)?)?;
            Ok(true)
        }
        Found::Escaping => Ok(false),
    }
}

// Puts the text of each alternative onto the stack, the first on top.
fn put_alternatives(
    alloc: Global,
    stack: &mut Vec<Work>,
    alternatives: Vec<Vec<char>>,
    front: &[char],
    back: &[char],
) -> Result<(), NoMemory>
    ensures { OnOk result (map shown_work stack.new.items
        ≡ map shown_work stack.old.items ++ reverse (map (child front.now back.now) (shown_texts alternatives))) }
{
    let mut alternatives = alternatives;
    'alternatives: while let Some(alternative) = alternatives.pop() {
        let work = Work::of_alternative(alloc, front, &alternative, back)?;
        stack.push(work)?;
    }
    Ok(())
}

/// The pieces of a path between slashes that aren't empty. An escaped slash cuts too.
///
/// `NoMemory`: there was none.
pub fn get_path_components<'a>(alloc: Global, pattern: &'a str) -> Result<Vec<&'a str>, NoMemory>
    ensures { IfOk result (λ v. map (λ piece. piece.now) v.items ≡ components pattern.now) }
{
    Ok(
        pattern
            .split('/')
            .filter(|piece| !piece.is_empty())
            .collect(alloc)?,
    )
}

/// The component without its backslashes: the character after each is kept, and a lone last one is dropped.
///
/// `NoMemory`: there was none.
pub fn unescape_component(alloc: Global, comp: &str) -> Result<String, NoMemory>
    ensures { IfOk result (λ s. chars (string_bytes s) ≡ unescaped (chars comp.now)) }
{
    let characters = characters_of(alloc, comp)?;
    let mut plain = String::new(alloc);
    let mut escaped = false;
    for c in &characters {
        if escaped {
            put_character(&mut plain, *c)?;
            escaped = false;
        } else if *c == '\\' {
            escaped = true;
        } else {
            put_character(&mut plain, *c)?;
        }
    }
    Ok(plain)
}
