//! Loading a script's lines.
ghost use Rattle.std.specs.Prelude.{◌≡◌, ◌||◌, ℕ, None, Err, false, true, IfOk, OnOk};
ghost use Rattle.hdfs_cluster.specs.Counts.{SameCounts};
ghost use Rattle.hdfs_cluster.specs.Files.{State};
ghost use Rattle.hdfs_cluster.specs.Loading.{AreLoaded, AreValid, IsDecided, Loads, takes};
ghost use Rattle.hdfs_cluster.specs.Stores.{Agrees};
ghost use Rattle.hdfs_cluster.specs.Fitting.{Fits};
ghost use Rattle.hdfs_script.specs.Parsing.{first_untaken, or_else};
ghost use Rattle.hdfs_script.specs.Parsing as spec;
ghost use Rattle.hdfs_top.specs.Inside.{LoadsAll, LoadsScript, Readies, RefusesScript};

use hdfs_cluster::{AddFault, MemSettings, Store};
use hdfs_model::Command;
use hdfs_script::{NumberedLine, Parsed, is_fault};
use hdfs_wire::{List, NoMemory};

/// Why a script's lines aren't loaded.
#[derive(Clone, Copy)]
pub(crate) enum LoadFault {
    NoMemory,
    /// The line with this number is the first bad one.
    Refused(u64),
}

// The number of the first line that plans no fault.
fn first_file(lines: &[NumberedLine]) -> Option<u64>
    ensures { result ≡ spec.first_file lines.now }
{
    for numbered in lines {
        if !is_fault(&numbered.line) {
            return Some(numbered.number);
        }
    }
    None
}

// Loads one line.
fn load_line<C: Store>(store: &mut C, numbered: NumberedLine) -> Result<(), LoadFault>
    ensures loaded { OnOk result (Loads (C.shown store.old) numbered.line (C.shown store.new)) }
    ensures taken { OnOk result ((state : State) → Agrees (C.shown store.old).picture state.files
        → IsDecided (C.shown store.old) state.files numbered.line
        → takes (C.shown store.old).loaded state.files numbered.line ≡ true) }
    ensures counts { SameCounts (C.shown store.old).counts (C.shown store.new).counts }
    ensures refused { (number : ℕ) → result ≡ Err (LoadFault.Refused number) → (number ≡ numbered.number)
        × ((state : State) → Agrees (C.shown store.old).picture state.files
        → IsDecided (C.shown store.old) state.files numbered.line
        → takes (C.shown store.old).loaded state.files numbered.line ≡ false) }
{
    let NumberedLine { number, line } = numbered;
    match store.load(line) {
        Ok(()) => Ok(()),
        Err(AddFault::Refused) => Err(LoadFault::Refused(number)),
        Err(AddFault::NoMemory) => Err(LoadFault::NoMemory),
    }
}

// Loads lines, in order.
fn load_lines<C: Store>(store: &mut C, lines: List<NumberedLine>) -> Result<(), LoadFault>
    ensures loaded { OnOk result (LoadsAll (C.shown store.old) lines (C.shown store.new)) }
    ensures counts { SameCounts (C.shown store.old).counts (C.shown store.new).counts }
    ensures refused { (number : ℕ) → result ≡ Err (LoadFault.Refused number) → (state : State)
        → Fits (C.shown store.old) state
        → AreLoaded (C.shown store.old) state.files → first_untaken true (C.shown store.old).loaded state lines
        ≡ Some number }
    ensures faults { (number : ℕ) → result ≡ Err (LoadFault.Refused number) → (state : State)
        → Fits (C.shown store.old) state
        → spec.first_file lines ≡ None → ⊥ }
{
    for numbered in lines.into_vec() {
        load_line(store, numbered)?;
    }
    Ok(())
}

// Where a store that isn't fresh refuses a script before a line is loaded: it takes no setting, no file, and nothing of a bad script.
fn refused_unloaded(fresh: bool, read: &Parsed) -> Option<u64>
    ensures fresh { fresh ≡ true → result ≡ None }
    ensures held { fresh ≡ false → result ≡ or_else read.now.sets
        (or_else (spec.first_file read.now.lines) read.now.bad) }
{
    if fresh {
        return None;
    }
    read.sets.or(first_file(read.lines.as_slice())).or(read.bad)
}

// Gives a fresh store a script's settings.
fn ready<C: Store>(store: &mut C, fresh: bool, settings: MemSettings) -> Result<(), NoMemory>
    requires fresh { fresh ≡ C.is_fresh store.old }
    requires valid { AreValid settings }
    ensures readies { OnOk result (Readies fresh (C.shown store.old) settings (C.shown store.new)) }
    ensures counts { SameCounts (C.shown store.old).counts (C.shown store.new).counts }
{
    if !fresh {
        return Ok(());
    }
    store.prepare(settings)
}

/// Loads what was read of a script: its settings and its lines, in order, where none of its lines is bad.
pub(crate) fn load_script<C: Store>(store: &mut C, read: Parsed) -> Result<List<Command>, LoadFault>
    requires { AreValid read.settings.cluster }
    ensures loaded { IfOk result (λ commands. (commands ≡ read.commands)
        × LoadsScript (C.is_fresh store.old) (C.shown store.old) read (C.shown store.new)) }
    ensures counts { SameCounts (C.shown store.old).counts (C.shown store.new).counts }
    ensures refused { (number : ℕ) → result ≡ Err (LoadFault.Refused number)
        → RefusesScript (C.is_fresh store.old) (C.shown store.old) read number (C.shown store.new) }
{
    let fresh = store.fresh();
    if let Some(number) = refused_unloaded(fresh, &read) {
        return Err(LoadFault::Refused(number));
    }
    let Ok(()) = ready(store, fresh, read.settings.cluster) else {
        return Err(LoadFault::NoMemory);
    };
    load_lines(store, read.lines)?;
    match read.bad {
        None => Ok(read.commands),
        Some(number) => Err(LoadFault::Refused(number)),
    }
}
