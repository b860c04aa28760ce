//! The entries of access control lists, and their lists.

ghost use Rattle.std.specs.Prelude.{◌≡◌, IfOk};
ghost use Rattle.std.specs.Str.{bytes_eq, str_to_ascii_lowercase};
ghost use Rattle.std.specs.Option.{option_eq};
ghost use Rattle.hdfs_names.specs.Acls.{action_text, scope_text, type_text};

use crate::acl_entry_scope::AclEntryScope;
use crate::acl_entry_type::AclEntryType;
use crate::fs_action::FsAction;
use hdfs_wire::{List, NoMemory, Text};
use std::alloc::Global;

/// An entry of an access control list.
#[derive(Debug, Drop)]
pub struct AclEntry {
    pub kind: AclEntryType,
    pub scope: AclEntryScope,
    pub permissions: FsAction,
    /// The user or group that the entry is about, where one is named.
    pub name: Option<Text>,
}

impl AclEntry {
    /// The entry of these parts.
    pub fn new(
        kind: AclEntryType,
        scope: AclEntryScope,
        permissions: FsAction,
        name: Option<Text>,
    ) -> AclEntry
        ensures { result ≡ record { kind = kind; scope = scope; permissions = permissions; name = name } }
    {
        AclEntry {
            kind,
            scope,
            permissions,
            name,
        }
    }

    /// The same entry in memory of its own.
    pub fn copy(&self, alloc: Global) -> Result<AclEntry, NoMemory>
        ensures { IfOk result (λ entry. entry ≡ self.now) }
    {
        let name = match &self.name {
            Some(name) => Some(name.copy(alloc)?),
            None => None,
        };
        Ok(AclEntry::new(self.kind, self.scope, self.permissions, name))
    }
}

impl PartialEq for AclEntry {
    ghost use Rattle.std.specs.Prelude.{IsTrue, ◌↔◌};
    ghost use Rattle.std.specs.Cmp.{partial_equiv_from_equiv};
    ghost use Rattle.hdfs_names.specs.AclEntries.{entry_eq, entry_eq_equiv};

    ghost eq = { entry_eq };

    ghost laws = { partial_equiv_from_equiv entry_eq_equiv };

    fn eq(&self, other: &AclEntry) -> bool
        ensures value { result ≡ entry_eq self.now other.now }
        ensures same { IsTrue result ↔ (self.now ≡ other.now) }
    {
        self.kind == other.kind
            && self.scope == other.scope
            && self.permissions == other.permissions
            && have_one_text(&self.name, &other.name)
    }
}

impl Eq for AclEntry {
    ghost use Rattle.hdfs_names.specs.AclEntries.{entry_eq_equiv};

    ghost laws = { entry_eq_equiv };
}

// Whether two names are there or not, and have one text.
fn have_one_text(name: &Option<Text>, other: &Option<Text>) -> bool
    ensures { result ≡ option_eq bytes_eq name.now other.now }
{
    match (name, other) {
        (Some(name), Some(other)) => name.as_str() == other.as_str(),
        (None, None) => true,
        _ => false,
    }
}

/// The access control list of a path, as a namenode tells it.
#[derive(Debug, Drop)]
pub struct AclStatus {
    pub owner: Text,
    pub group: Text,
    /// Whether the sticky bit is set.
    pub sticky: bool,
    pub entries: List<AclEntry>,
    /// The permission bits.
    pub permission: u16,
}

/// A displayed text is read again as the value that it was made of.
pub fn displayed_texts_are_read_again()
    ensures types { (k j : AclEntryType) → type_text k ≡ str_to_ascii_lowercase (type_text j) → k ≡ j }
    ensures scopes { (k j : AclEntryScope) → scope_text k ≡ str_to_ascii_lowercase (scope_text j) → k ≡ j }
    ensures actions { (k j : FsAction) → action_text k ≡ action_text j → k ≡ j }
    ensures lower_types { (k : AclEntryType) → str_to_ascii_lowercase (type_text k) ≡ type_text k }
    ensures lower_scopes { (k : AclEntryScope) → str_to_ascii_lowercase (scope_text k) ≡ scope_text k }
{}
