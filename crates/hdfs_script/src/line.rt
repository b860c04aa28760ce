//! One line of a script.
ghost use Rattle.std.specs.Prelude.{◌≡◌, ◌&&◌, [], ◌∷◌, map, None, IfOk, codes, if◌then◌else◌};
ghost use Rattle.std.specs.Result.{result_ok};
ghost use Rattle.std.specs.Str.{bytes_eq};
ghost use Rattle.hdfs_script.specs.Commands.{create_entry as create_entry_of};
ghost use Rattle.hdfs_script.specs.Entries as spec;
ghost use Rattle.hdfs_script.specs.Entries.{good};

use crate::command::{append_entry, close_entry, create_entry, options, read_entry, write_entry};
use crate::entry::{Entry, Reading, bad};
use crate::fault::{ask_fault, exception_fault, fault_entry, read_fault};
use crate::file::{attributes, dir_entry, file_entry, short_entry};
use crate::forms::no_line;
use crate::naming::{delete_entry, info_entry, list_entry, mkdirs_entry};
use crate::setting::set_entry;
use crate::words::{is_ascii, is_text, words};
use crate::wrong::{Why, Wrong};
use hdfs_model::WriteOptions;
use hdfs_wire::NoMemory;
use std::alloc::Global;

// A line of eight words, of which the last five are options.
fn eight_words(
    alloc: Global,
    kind: &[u8],
    call: &[u8],
    path: &[u8],
    options: Result<WriteOptions, Wrong>,
) -> Result<Reading, NoMemory>
    ensures { IfOk result (λ reading. result_ok reading
        ≡ good (if bytes_eq kind.now (codes "do") && bytes_eq call.now (codes "create")
        then create_entry_of path.now (result_ok options) else Entry.Bad)) }
{
    if !is_text(kind, "do") || !is_text(call, "create") {
        return Ok(no_line(kind, call, 8));
    }
    Ok(create_entry(alloc, path, options)?)
}

// The first two words of a line.
#[derive(Clone, Copy)]
struct LineHead<'a> {
    kind: &'a [u8],
    call: &'a [u8],
}

// A line of six words.
fn six_words(
    alloc: Global,
    head: LineHead<'_>,
    a: &[u8],
    b: &[u8],
    c: &[u8],
    d: &[u8],
) -> Result<Reading, NoMemory>
    ensures { IfOk result (λ reading. result_ok reading
        ≡ good (spec.words_entry (head.entry.kind.now ∷ head.entry.call.now ∷ a.now ∷ b.now ∷ c.now ∷ d.now ∷ []))) }
{
    let LineHead { kind, call } = head;
    if is_text(kind, "file") {
        let attributes = attributes(a, b, c);
        return Ok(file_entry(alloc, call, attributes, d)?);
    }
    if is_text(kind, "fault") && is_text(call, "ask") {
        return Ok(exception_fault(alloc, a, b, c, d)?);
    }
    Ok(no_line(kind, call, 6))
}

// A command with its path and two words more.
fn words_command(
    alloc: Global,
    call: &[u8],
    path: &[u8],
    a: &[u8],
    b: &[u8],
) -> Result<Reading, NoMemory>
    ensures { IfOk result (λ reading. result_ok reading ≡ good (spec.words_command call.now path.now a.now b.now)) }
{
    if is_text(call, "read") {
        return Ok(read_entry(alloc, path, a, b)?);
    }
    if is_text(call, "mkdirs") {
        return Ok(mkdirs_entry(alloc, path, a, b)?);
    }
    if is_text(call, "list") {
        return Ok(list_entry(alloc, path, a, b)?);
    }
    Ok(no_line(b"do", call, 5))
}

// A line of five words.
fn five_words(
    alloc: Global,
    kind: &[u8],
    call: &[u8],
    a: &[u8],
    b: &[u8],
    c: &[u8],
) -> Result<Reading, NoMemory>
    ensures { IfOk result (λ reading. result_ok reading
        ≡ good (spec.words_entry (kind.now ∷ call.now ∷ a.now ∷ b.now ∷ c.now ∷ []))) }
{
    if is_text(kind, "fault") && is_text(call, "read") {
        return Ok(read_fault(a, b, c));
    }
    if is_text(kind, "fault") && is_text(call, "ask") {
        return Ok(ask_fault(a, b, c));
    }
    if is_text(kind, "do") {
        return Ok(words_command(alloc, call, a, b, c)?);
    }
    if is_text(kind, "short") {
        return Ok(short_entry(alloc, call, a, b, c)?);
    }
    Ok(no_line(kind, call, 5))
}

// A command with its path and a word more.
fn word_command(alloc: Global, call: &[u8], path: &[u8], a: &[u8]) -> Result<Reading, NoMemory>
    ensures { IfOk result (λ reading. result_ok reading ≡ good (spec.word_command call.now path.now a.now)) }
{
    if is_text(call, "write") {
        return Ok(write_entry(alloc, path, a)?);
    }
    if is_text(call, "delete") {
        return Ok(delete_entry(alloc, path, a)?);
    }
    Ok(no_line(b"do", call, 4))
}

// A line of four words.
fn four_words(
    alloc: Global,
    kind: &[u8],
    call: &[u8],
    a: &[u8],
    b: &[u8],
) -> Result<Reading, NoMemory>
    ensures { IfOk result (λ reading. result_ok reading
        ≡ good (spec.words_entry (kind.now ∷ call.now ∷ a.now ∷ b.now ∷ []))) }
{
    if is_text(kind, "fault") {
        return Ok(fault_entry(call, a, b));
    }
    if !is_text(kind, "do") {
        return Ok(no_line(kind, call, 4));
    }
    Ok(word_command(alloc, call, a, b)?)
}

// A command with its path alone.
fn path_command(alloc: Global, call: &[u8], path: &[u8]) -> Result<Reading, NoMemory>
    ensures { IfOk result (λ reading. result_ok reading ≡ good (spec.path_command call.now path.now)) }
{
    if is_text(call, "append") {
        return Ok(append_entry(alloc, path)?);
    }
    if is_text(call, "close") {
        return Ok(close_entry(alloc, path)?);
    }
    if is_text(call, "info") {
        return Ok(info_entry(alloc, path)?);
    }
    Ok(no_line(b"do", call, 3))
}

// A line of three words.
fn three_words(alloc: Global, kind: &[u8], call: &[u8], a: &[u8]) -> Result<Reading, NoMemory>
    ensures { IfOk result (λ reading. result_ok reading ≡ good (spec.words_entry (kind.now ∷ call.now ∷ a.now ∷ []))) }
{
    if is_text(kind, "set") {
        return Ok(set_entry(alloc, call, a)?);
    }
    if !is_text(kind, "do") {
        return Ok(no_line(kind, call, 3));
    }
    Ok(path_command(alloc, call, a)?)
}

// A line of two words.
fn two_words(alloc: Global, kind: &[u8], path: &[u8]) -> Result<Reading, NoMemory>
    ensures { IfOk result (λ reading. result_ok reading ≡ good (spec.words_entry (kind.now ∷ path.now ∷ []))) }
{
    if !is_text(kind, "dir") {
        return Ok(no_line(kind, path, 2));
    }
    Ok(dir_entry(alloc, path)?)
}

// What is wrong with words of which no line has so many.
fn other_words(words: &[&[u8]]) -> Reading
    ensures { result_ok result ≡ None }
{
    match words {
        [] => no_line(b"", b"", 0),
        [kind] => no_line(kind, b"", 1),
        [kind, call, ..] => no_line(kind, call, words.len()),
    }
}

// What the words of a line say.
fn words_entry(alloc: Global, words: &[&[u8]]) -> Result<Reading, NoMemory>
    ensures { IfOk result (λ reading. result_ok reading ≡ good (spec.words_entry (map (λ word. word.now) words.now))) }
{
    match words.len() {
        8 => {
            let options = options(words[3], words[4], words[5], words[6], words[7]);
            Ok(eight_words(alloc, words[0], words[1], words[2], options)?)
        }
        6 => {
            let head = LineHead {
                kind: words[0],
                call: words[1],
            };
            Ok(six_words(alloc, head, words[2], words[3], words[4], words[5])?)
        }
        5 => Ok(five_words(alloc, words[0], words[1], words[2], words[3], words[4])?),
        4 => Ok(four_words(alloc, words[0], words[1], words[2], words[3])?),
        3 => Ok(three_words(alloc, words[0], words[1], words[2])?),
        2 => Ok(two_words(alloc, words[0], words[1])?),
        _ => Ok(other_words(words)),
    }
}

/// What a line says that isn't bad, or why it is bad.
pub(crate) fn reading(alloc: Global, line: &[u8]) -> Result<Reading, NoMemory>
    ensures { IfOk result (λ reading. result_ok reading ≡ good (spec.entry_of line.now)) }
{
    if !is_ascii(line) {
        return Ok(bad(0, Why::NotAscii));
    }
    if line.is_empty() || line[0] == b'#' {
        return Ok(Ok(Entry::Blank));
    }
    let words = words(alloc, line)?;
    Ok(words_entry(alloc, words.as_slice())?)
}

/// What a line says.
pub(crate) fn entry(alloc: Global, line: &[u8]) -> Result<Entry, NoMemory>
    ensures { IfOk result (λ entry. entry ≡ spec.entry_of line.now) }
{
    match reading(alloc, line)? {
        Ok(entry) => Ok(entry),
        Err(_) => Ok(Entry::Bad),
    }
}
