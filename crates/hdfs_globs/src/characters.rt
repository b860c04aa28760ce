//! Texts as lists of characters, and back.

ghost use Rattle.std.specs.Prelude.{◌≡◌, ◌+◌, ◌<◌, ◌++◌, ◌∷◌, [], drop, length, IfOk, OnOk, string_bytes};
ghost use Rattle.std.specs.Str.{chars};

use hdfs_wire::NoMemory;
use std::alloc::Global;

/// The characters of the text.
pub(crate) fn characters_of(alloc: Global, text: &str) -> Result<Vec<char>, NoMemory>
    ensures { IfOk result (λ v. v.items ≡ chars text.now) }
{
    Ok(text.chars().collect(alloc)?)
}

/// Puts a character behind the text.
pub(crate) fn put_character(text: &mut String, c: char) -> Result<(), NoMemory>
    ensures { OnOk result (chars (string_bytes text.new) ≡ chars (string_bytes text.old) ++ c ∷ []) }
{
    Ok(text.push(c)?)
}

/// The text of these characters.
pub(crate) fn text_of(alloc: Global, characters: &[char]) -> Result<String, NoMemory>
    ensures { IfOk result (λ text. chars (string_bytes text) ≡ characters.now) }
{
    let mut text = String::new(alloc);
    for c in characters {
        put_character(&mut text, *c)?;
    }
    Ok(text)
}

/// The character at this place.
pub(crate) fn character_at(characters: &[char], at: usize) -> char
    requires { at < length characters.now }
    ensures { drop at characters.now ≡ result ∷ drop (at + 1) characters.now }
{
    characters[at]
}
