//! The scopes of entries: for a file or directory itself, or for what is made below it.

ghost use Rattle.std.specs.Prelude.{◌≡◌, ◌≢◌, ◌⊎◌, IfOk, IfErr, IfSome, IfNone, Option as Maybe};
ghost use Rattle.std.specs.Str.{str_to_ascii_lowercase};
ghost use Rattle.hdfs_names.specs.Acls.{scope_number, scope_text};

use crate::fault::{NamesFault, refused};
use std::alloc::Global;
use std::fmt;

/// Whether an entry holds for a file or directory itself, or is given to what is made below a directory.
#[derive(Clone, Copy, Debug, PartialEq, Eq)]
pub enum AclEntryScope {
    /// For the file or directory itself.
    Access,
    /// For what is made below the directory.
    Default,
}

impl AclEntryScope {
    /// Reads `access` or `default`, in any ASCII case. It takes no memory but for a refusal.
    ///
    /// `InvalidArgument`, with the given text: it is neither.
    pub fn parse(alloc: Global, text: &str) -> Result<AclEntryScope, NamesFault>
        ensures ok { IfOk result (λ k. scope_text k ≡ str_to_ascii_lowercase text.now) }
        ensures refused { IfErr result (λ e. (e ≡ NamesFault.NoMemory)
            ⊎ ((e ≡ NamesFault.InvalidArgument text.now) × ((k : AclEntryScope) → scope_text k ≢ str_to_ascii_lowercase text.now))) }
    {
        match scope_of(text) {
            Some(scope) => Ok(scope),
            None => Err(refused(alloc, text)),
        }
    }

    /// The number in messages.
    pub fn number(&self) -> u32
        ensures { result ≡ scope_number self.now }
    {
        *self as u32
    }

    /// The scope of this number; any other number gives `Access`.
    pub fn from_number(number: u32) -> AclEntryScope
        ensures known { (k : AclEntryScope) → scope_number k ≡ number → result ≡ k }
        ensures other { (scope_number result ≡ number) ⊎ (result ≡ AclEntryScope.Access) }
    {
        match number {
            1 => AclEntryScope::Default,
            _ => AclEntryScope::Access,
        }
    }

    /// The text of the scope.
    pub fn as_str(&self) -> &str
        ensures { result.now ≡ scope_text self.now }
    {
        match self {
            AclEntryScope::Access => "access",
            AclEntryScope::Default => "default",
        }
    }
}

impl fmt::Display for AclEntryScope {
    ghost output = { λ scope. Maybe.Some (scope_text scope) };

    fn fmt<W: fmt::Write>(&self, f: &mut fmt::Formatter<W>) -> fmt::Result {
        f.write_str(self.as_str())
    }
}

// The scope of this text, in any ASCII case.
fn scope_of(text: &str) -> Option<AclEntryScope>
    ensures some { IfSome result (λ k. scope_text k ≡ str_to_ascii_lowercase text.now) }
    ensures none { IfNone result ((k : AclEntryScope) → scope_text k ≢ str_to_ascii_lowercase text.now) }
{
    if text.eq_ignore_ascii_case("access") {
        Some(AclEntryScope::Access)
    } else if text.eq_ignore_ascii_case("default") {
        Some(AclEntryScope::Default)
    } else {
        None
    }
}
