//! The types of entries: whom an entry is about.

ghost use Rattle.std.specs.Prelude.{◌≡◌, ◌≢◌, ◌⊎◌, IfOk, IfErr, IfSome, IfNone, Option as Maybe};
ghost use Rattle.std.specs.Str.{str_to_ascii_lowercase};
ghost use Rattle.hdfs_names.specs.Acls.{type_number, type_text};

use crate::fault::{NamesFault, refused};
use std::alloc::Global;
use std::fmt;

/// Whom an entry is about.
#[derive(Clone, Copy, Debug, PartialEq, Eq)]
pub enum AclEntryType {
    /// The owner, or a user that is named.
    User,
    /// The group of the file, or one that is named.
    Group,
    /// The most that named users, named groups and the file's group are allowed.
    Mask,
    /// Everybody else.
    Other,
}

impl AclEntryType {
    /// Reads `user`, `group`, `mask` or `other`, in any ASCII case. It takes no memory but for a refusal.
    ///
    /// `InvalidArgument`, with the given text: it is none of these.
    pub fn parse(alloc: Global, text: &str) -> Result<AclEntryType, NamesFault>
        ensures ok { IfOk result (λ k. type_text k ≡ str_to_ascii_lowercase text.now) }
        ensures refused { IfErr result (λ e. (e ≡ NamesFault.NoMemory)
            ⊎ ((e ≡ NamesFault.InvalidArgument text.now) × ((k : AclEntryType) → type_text k ≢ str_to_ascii_lowercase text.now))) }
    {
        match type_of(text) {
            Some(kind) => Ok(kind),
            None => Err(refused(alloc, text)),
        }
    }

    /// The number in messages.
    pub fn number(&self) -> u32
        ensures { result ≡ type_number self.now }
    {
        *self as u32
    }

    /// The type of this number; any other number gives `User`.
    pub fn from_number(number: u32) -> AclEntryType
        ensures known { (k : AclEntryType) → type_number k ≡ number → result ≡ k }
        ensures other { (type_number result ≡ number) ⊎ (result ≡ AclEntryType.User) }
    {
        match number {
            1 => AclEntryType::Group,
            2 => AclEntryType::Mask,
            3 => AclEntryType::Other,
            _ => AclEntryType::User,
        }
    }

    /// The text of the type.
    pub fn as_str(&self) -> &str
        ensures { result.now ≡ type_text self.now }
    {
        match self {
            AclEntryType::User => "user",
            AclEntryType::Group => "group",
            AclEntryType::Mask => "mask",
            AclEntryType::Other => "other",
        }
    }
}

impl fmt::Display for AclEntryType {
    ghost output = { λ kind. Maybe.Some (type_text kind) };

    fn fmt<W: fmt::Write>(&self, f: &mut fmt::Formatter<W>) -> fmt::Result {
        f.write_str(self.as_str())
    }
}

// The type of this text, in any ASCII case.
fn type_of(text: &str) -> Option<AclEntryType>
    ensures some { IfSome result (λ k. type_text k ≡ str_to_ascii_lowercase text.now) }
    ensures none { IfNone result ((k : AclEntryType) → type_text k ≢ str_to_ascii_lowercase text.now) }
{
    if text.eq_ignore_ascii_case("user") {
        Some(AclEntryType::User)
    } else if text.eq_ignore_ascii_case("group") {
        Some(AclEntryType::Group)
    } else if text.eq_ignore_ascii_case("mask") {
        Some(AclEntryType::Mask)
    } else if text.eq_ignore_ascii_case("other") {
        Some(AclEntryType::Other)
    } else {
        None
    }
}
