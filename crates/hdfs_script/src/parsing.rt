//! A whole script.
ghost use Rattle.std.specs.Prelude.{◌≡◌, ◌==◌, ◌≤◌, [], ◌∷◌, length, IfOk, OnOk, if◌then◌else◌};
ghost use Rattle.std.specs.List.{slice_split};
ghost use Rattle.hdfs_script.specs.Entries.{entry_of};
ghost use Rattle.hdfs_script.specs.Parsing.{Gains, Parses, bad_from, good_front, first_out};
ghost use Rattle.hdfs_script.specs.Scripts as spec;
ghost use Rattle.hdfs_script.specs.Scripts.{part_of, entries_in, first_place, line_entries, script_limit};

use crate::entry::{Entry, NumberedLine, Parsed, Place, Setting};
use crate::line::entry;
use crate::settings::{no_settings, set};
use hdfs_cluster::Line;
use hdfs_wire::{List, NoMemory};
use std::alloc::Global;

/// How many bytes a script may have.
pub const SCRIPT_LIMIT: usize = 16777216;

/// Where a script begins: with one namenode, which is active.
pub(crate) const FIRST_PLACE: Place = Place {
    part: 0,
    namenodes: 1,
    active: 0,
};

/// Whether a line plans a fault.
pub fn is_fault(line: &Line) -> bool
    ensures { result ≡ spec.is_fault line.now }
{
    matches!(line, Line::Fault(_))
}

// The part of a script in which an entry may stand, where the last one stood in this part.
fn part_of_entry(now: u8, entry: &Entry) -> u8
    ensures { result ≡ part_of now entry.now }
{
    match entry {
        Entry::Sets(_) => 0,
        Entry::Loads(line) if is_fault(line) => 2,
        Entry::Loads(_) => 1,
        Entry::Runs(_) => 3,
        Entry::Blank | Entry::Bad => now,
    }
}

// How many namenodes there are behind a setting, where there were so many.
fn namenodes_with(namenodes: u32, setting: &Setting) -> u32
    ensures { result ≡ spec.namenodes_with namenodes setting.now }
{
    match setting {
        Setting::Namenodes(given) => *given,
        _ => namenodes,
    }
}

// The number of the active namenode behind a setting, where it was this one.
fn active_with(active: u32, setting: &Setting) -> u32
    ensures { result ≡ spec.active_with active setting.now }
{
    match setting {
        Setting::Active(given) => *given,
        _ => active,
    }
}

/// The place behind an entry.
pub(crate) fn place_behind(place: Place, entry: &Entry) -> Place
    ensures { result ≡ spec.place_behind place entry.now }
{
    let part = part_of_entry(place.part, entry);
    match entry {
        Entry::Sets(setting) => Place {
            part,
            namenodes: namenodes_with(place.namenodes, setting),
            active: active_with(place.active, setting),
        },
        _ => Place { part, ..place },
    }
}

// Whether a setting leaves a namenode that is active.
fn may_set(place: Place, setting: &Setting) -> bool
    ensures { result ≡ spec.may_set place setting.now }
{
    match setting {
        Setting::Namenodes(namenodes) => place.active < *namenodes,
        Setting::Active(active) => *active < place.namenodes,
        _ => true,
    }
}

/// Whether an entry may stand at this place of a script.
pub(crate) fn may_stand(place: Place, entry: &Entry) -> bool
    ensures { result ≡ spec.may_stand place entry.now }
{
    match entry {
        Entry::Bad => false,
        Entry::Sets(setting) => place.part == 0 && may_set(place, setting),
        _ => part_of_entry(place.part, entry) >= place.part,
    }
}

// What a line says, which is bad where it passes the script's limit.
fn entry_within(alloc: Global, line: &[u8], passes: bool) -> Result<Entry, NoMemory>
    ensures { IfOk result (λ entry. entry ≡ (if passes then Entry.Bad else entry_of line.now)) }
{
    if passes {
        return Ok(Entry::Bad);
    }
    Ok(entry(alloc, line)?)
}

// Puts a setting behind what was read, from the line of this number.
fn put_setting(read: &mut Parsed, number: u64, setting: Setting)
    ensures { Gains read.old number (Entry.Sets setting ∷ []) read.new }
{
    set(&mut read.settings, setting);
    read.sets = read.sets.or(Some(number));
}

// Puts an entry of this number behind what was read.
fn put(read: &mut Parsed, number: u64, entry: Entry) -> Result<(), NoMemory>
    ensures { OnOk result (Gains read.old number (entry ∷ []) read.new) }
{
    match entry {
        Entry::Sets(setting) => put_setting(read, number, setting),
        Entry::Loads(line) => read.lines.push(NumberedLine { number, line })?,
        Entry::Runs(command) => read.commands.push(command)?,
        Entry::Blank | Entry::Bad => {}
    }
    Ok(())
}

// Puts the lines up to the first bad one behind what was read, and answers its number. The one of number `limit` is bad.
fn read_lines(
    alloc: Global,
    bytes: &[u8],
    limit: u64,
    read: &mut Parsed,
) -> Result<Option<u64>, NoMemory>
    requires { length bytes.now ≤ script_limit }
    ensures bad { IfOk result (λ bad. bad ≡ first_out first_place 1 (bad_from limit 1 (line_entries bytes.now))) }
    ensures gains { OnOk result (Gains read.old 1 (good_front first_place (bad_from limit 1 (line_entries bytes.now)))
        read.new) }
{
    let mut place = FIRST_PLACE;
    let mut number = 1;
    for line in bytes.split(|b| *b == b'\n') {
        let entry = entry_within(alloc, line, number == limit)?;
        if !may_stand(place, &entry) {
            drop(entry);
            return Ok(Some(number));
        }
        place = place_behind(place, &entry);
        put(read, number, entry)?;
        number += 1;
    }
    Ok(None)
}

// How many lines bytes have.
fn count_lines(bytes: &[u8]) -> u64
    ensures { result ≡ length (slice_split (λ b. b == 10) bytes.now) }
{
    bytes.split(|b| *b == b'\n').count() as u64
}

// Puts the lines of a script up to the first bad one behind what was read, and answers its number.
fn read_script(alloc: Global, bytes: &[u8], read: &mut Parsed) -> Result<Option<u64>, NoMemory>
    ensures bad { IfOk result (λ bad. bad ≡ first_out first_place 1 (entries_in bytes.now)) }
    ensures gains { OnOk result (Gains read.old 1 (good_front first_place (entries_in bytes.now)) read.new) }
{
    if bytes.len() <= SCRIPT_LIMIT {
        return Ok(read_lines(alloc, bytes, 0, read)?);
    }
    let front = &bytes[..SCRIPT_LIMIT];
    let limit = count_lines(front);
    Ok(read_lines(alloc, front, limit, read)?)
}

/// What a script says up to its first line that is bad by its text or its place: one that isn't ASCII, is unknown, stands out
/// of order or passes the script's limit.
pub fn parse(alloc: Global, bytes: &[u8]) -> Result<Parsed, NoMemory>
    ensures { IfOk result (λ read. Parses bytes.now read) }
{
    let mut read = Parsed {
        settings: no_settings(alloc)?,
        sets: None,
        lines: List::new(alloc),
        commands: List::new(alloc),
        bad: None,
    };
    let bad = read_script(alloc, bytes, &mut read)?;
    read.bad = bad;
    Ok(read)
}
