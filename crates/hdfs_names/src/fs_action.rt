//! Actions: what an entry allows.

ghost use Rattle.std.specs.Prelude.{◌≡◌, ◌≢◌, ◌⊎◌, IfOk, IfErr, IfSome, IfNone, Option as Maybe};
ghost use Rattle.hdfs_names.specs.Acls.{action_number, action_text};

use crate::fault::{NamesFault, refused};
use std::alloc::Global;
use std::fmt;

/// What an entry allows.
#[derive(Clone, Copy, Debug, PartialEq, Eq)]
pub enum FsAction {
    None,
    Execute,
    Write,
    WriteExecute,
    Read,
    ReadExecute,
    ReadWrite,
    PermAll,
}

impl FsAction {
    /// Reads three letters, `r` or `-`, `w` or `-`, and `x` or `-`. It takes no memory but for a refusal.
    ///
    /// `InvalidArgument`, with the given text: it has another form.
    pub fn parse(alloc: Global, text: &str) -> Result<FsAction, NamesFault>
        ensures ok { IfOk result (λ k. action_text k ≡ text.now) }
        ensures refused { IfErr result (λ e. (e ≡ NamesFault.NoMemory)
            ⊎ ((e ≡ NamesFault.InvalidArgument text.now) × ((k : FsAction) → action_text k ≢ text.now))) }
    {
        match action_of(text) {
            Some(action) => Ok(action),
            None => Err(refused(alloc, text)),
        }
    }

    /// The number in messages.
    pub fn number(&self) -> u32
        ensures { result ≡ action_number self.now }
    {
        *self as u32
    }

    /// The action of this number; any other number gives `None`.
    pub fn from_number(number: u32) -> FsAction
        ensures known { (k : FsAction) → action_number k ≡ number → result ≡ k }
        ensures other { (action_number result ≡ number) ⊎ (result ≡ FsAction.None) }
    {
        match number {
            1 => FsAction::Execute,
            2 => FsAction::Write,
            3 => FsAction::WriteExecute,
            4 => FsAction::Read,
            5 => FsAction::ReadExecute,
            6 => FsAction::ReadWrite,
            7 => FsAction::PermAll,
            _ => FsAction::None,
        }
    }

    /// The text of the action.
    pub fn as_str(&self) -> &str
        ensures { result.now ≡ action_text self.now }
    {
        match self {
            FsAction::None => "---",
            FsAction::Execute => "--x",
            FsAction::Write => "-w-",
            FsAction::WriteExecute => "-wx",
            FsAction::Read => "r--",
            FsAction::ReadExecute => "r-x",
            FsAction::ReadWrite => "rw-",
            FsAction::PermAll => "rwx",
        }
    }
}

impl fmt::Display for FsAction {
    ghost output = { λ action. Maybe.Some (action_text action) };

    fn fmt<W: fmt::Write>(&self, f: &mut fmt::Formatter<W>) -> fmt::Result {
        f.write_str(self.as_str())
    }
}

// The action of this text.
fn action_of(text: &str) -> Option<FsAction>
    ensures some { IfSome result (λ k. action_text k ≡ text.now) }
    ensures none { IfNone result ((k : FsAction) → action_text k ≢ text.now) }
{
    match text {
        "---" => Some(FsAction::None),
        "--x" => Some(FsAction::Execute),
        "-w-" => Some(FsAction::Write),
        "-wx" => Some(FsAction::WriteExecute),
        "r--" => Some(FsAction::Read),
        "r-x" => Some(FsAction::ReadExecute),
        "rw-" => Some(FsAction::ReadWrite),
        "rwx" => Some(FsAction::PermAll),
        _ => None,
    }
}
