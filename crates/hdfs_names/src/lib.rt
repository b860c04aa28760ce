//! Names: paths, settings, mounts, the texts of access control lists, and the policy by which datanodes are replaced.
#![tactic(auto)]

mod acl_entry;
mod acl_entry_scope;
mod acl_entry_type;
mod fault;
mod fs_action;
mod mounts;
mod paths;
mod replacement;
mod settings;

pub use acl_entry::{AclEntry, AclStatus, displayed_texts_are_read_again};
pub use acl_entry_scope::AclEntryScope;
pub use acl_entry_type::AclEntryType;
pub use fault::NamesFault;
pub use fs_action::FsAction;
pub use mounts::{MountLink, MountTable, NamenodeAddress, Resolved, build_home_dir};
pub use paths::{absolute_path, is_path, nearest_ancestor, parent_of};
pub use replacement::{Policy, ReplaceDatanodeOnFailure};
pub use settings::Configuration;
