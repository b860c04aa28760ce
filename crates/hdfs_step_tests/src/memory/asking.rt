//! Asks of one namenode. For a client two of its exceptions are one error.
ghost use Rattle.std.specs.Prelude.{◌<◌};
ghost use Rattle.hdfs_mem_cluster.specs.MemShown.{shown_of};

use crate::memory::telling::tell_given;
use crate::steps::{Said, Words, is_true, octal, small};
use hdfs_cluster::{Ask, Cluster, CompleteAsk, CreateAsk};
use hdfs_mem_cluster::MemCluster;
use hdfs_wire::{Blob, NoMemory, Text};
use std::alloc::Global;

/// The ask of a step: for defaults, or to create a file (its flag, whether parents are made, its permission bits and its replication),
/// to go on with one, or to close one that has no block. Of those about names a listing has the name behind which it begins, `mkdirs`
/// whether directories are made above, `delete` whether all below goes too, and `rename` the other path and whether what stands there is
/// overwritten.
fn ask_of(alloc: Global, words: &Words<'_>) -> Result<Ask, NoMemory> {
    let src = Text::from_str(alloc, words[3])?;
    let client_name = Text::new(alloc);
    Ok(match words[2] {
        "create" => Ask::Create(CreateAsk {
            src,
            masked: octal(words[6]),
            client_name,
            create_flag: small(words[4]),
            create_parent: is_true(words[5]),
            replication: small(words[7]),
            block_size: 8,
        }),
        "append" => Ask::Append {
            src,
            client_name,
            flag: 4,
        },
        "complete" => Ask::Complete(CompleteAsk {
            src,
            client_name,
            last: None,
            file_id: None,
        }),
        "getFileInfo" => Ask::GetFileInfo { src },
        "getListing" => Ask::GetListing {
            src,
            start_after: Blob::from_vec(Vec::from_slice(alloc, words[4].as_bytes())?),
            need_location: false,
        },
        "getAclStatus" => Ask::GetAclStatus { src },
        "mkdirs" => Ask::Mkdirs {
            src,
            masked: 0o755,
            create_parent: is_true(words[4]),
        },
        "delete" => Ask::Delete {
            src,
            recursive: is_true(words[4]),
        },
        "rename" => Ask::Rename {
            src,
            dst: Text::from_str(alloc, words[4])?,
            overwrite_dest: is_true(words[5]),
        },
        "setPermission" => Ask::SetPermission {
            src,
            permission: octal(words[4]),
        },
        "setReplication" => Ask::SetReplication {
            src,
            replication: small(words[4]),
        },
        "getContentSummary" => Ask::GetContentSummary { path: src },
        "setTimes" => Ask::SetTimes {
            src,
            mtime: 1,
            atime: 1,
        },
        _ => Ask::GetServerDefaults,
    })
}

/// What the namenode gives.
fn tell(cluster: &mut MemCluster, number: u32, ask: &Ask, said: &mut Said)
    requires { number < (shown_of cluster.old).namenodes }
{
    let given = cluster.ask(number, ask);
    tell_given(&given, said);
    drop(given);
}

/// Asks the namenode with this number.
pub(crate) fn take(alloc: Global, cluster: &mut MemCluster, words: &Words<'_>, said: &mut Said) {
    let number = small(words[1]);
    if number >= cluster.namenodes() {
        said.fails("namenode");
        return;
    }
    match ask_of(alloc, words) {
        Ok(ask) => {
            tell(cluster, number, &ask, said);
            drop(ask);
        }
        Err(_) => said.fails("NoMemory"),
    }
}
