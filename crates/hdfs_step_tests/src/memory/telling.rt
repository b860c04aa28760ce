//! Answers and errors in words.
use crate::steps::Said;
use hdfs_cluster::{
    Answer, AskFault, DatanodeInfo, DirList, FileStatusMsg, HdfsError, LinkFault, LocatedBlock,
    LocatedBlocks, Summary,
};
use std::str;

/// A client's error, by its name, and of a namenode's exception its class.
pub(crate) fn tell_error(error: &HdfsError, said: &mut Said) {
    match error {
        HdfsError::RPCError(class, _) => {
            said.fails("RPCError");
            said.word(class.as_str());
        }
        HdfsError::NoMemory => said.fails("NoMemory"),
        HdfsError::AlreadyExists(_) => said.fails("AlreadyExists"),
        HdfsError::IOError(_) => said.fails("IOError"),
        HdfsError::FileNotFound(path) => {
            said.fails("FileNotFound");
            said.word(path.as_str());
        }
        HdfsError::InvalidPath(path) => {
            said.fails("InvalidPath");
            said.word(path.as_str());
        }
        HdfsError::InvalidArgument(_) => said.fails("InvalidArgument"),
        HdfsError::DataTransferError(_) => said.fails("DataTransferError"),
        _ => said.fails("otherwise"),
    }
}

/// Why an ask has no answer, by its name, and of an exception its class.
fn tell_ask_fault(fault: &AskFault, said: &mut Said) {
    match fault {
        AskFault::NoMemory => said.fails("NoMemory"),
        AskFault::Broken => said.fails("Broken"),
        AskFault::BadReply(_) => said.fails("BadReply"),
        AskFault::Exception { class, .. } => {
            said.fails("Exception");
            said.word(class.as_str());
        }
        AskFault::Fatal { .. } => said.fails("Fatal"),
    }
}

/// The type, the length and the permission bits of what stands at a path.
fn tell_status(status: &Option<FileStatusMsg>, said: &mut Said) {
    match status {
        Some(status) => {
            said.number(u64::from(status.file_type));
            said.number(status.length);
            said.octal(status.permission);
        }
        None => said.word("none"),
    }
}

/// The names of a page, and how many come behind it.
fn tell_page(page: &Option<DirList>, said: &mut Said) {
    match page {
        Some(page) => {
            for status in page.partial_listing.as_slice() {
                said.word(str::from_utf8(status.path.as_slice()).unwrap_or("?"));
            }
            said.number(u64::from(page.remaining_entries));
        }
        None => said.word("none"),
    }
}

/// How many bytes, files and directories there are, the quota of these, and how many bytes all replicas have, with their quota.
fn tell_summary(summary: &Summary, said: &mut Said) {
    said.number(summary.length);
    said.number(summary.file_count);
    said.number(summary.directory_count);
    said.number(summary.quota);
    said.number(summary.space_consumed);
    said.number(summary.space_quota);
}

/// What a namenode gives: whether a file is closed, what stands at a path or in a directory, that there are defaults or another answer, or
/// why there is none.
pub(crate) fn tell_given(given: &Result<Answer, AskFault>, said: &mut Said) {
    match given {
        Ok(Answer::Complete(done)) => said.truth(*done),
        Ok(Answer::GetServerDefaults(_)) => said.word("defaults"),
        Ok(Answer::GetFileInfo(status)) => tell_status(status, said),
        Ok(Answer::GetListing(page)) => tell_page(page, said),
        Ok(Answer::Mkdirs(done)) => said.truth(*done),
        Ok(Answer::Delete(done)) => said.truth(*done),
        Ok(Answer::SetReplication(done)) => said.truth(*done),
        Ok(Answer::GetContentSummary(summary)) => tell_summary(summary, said),
        Ok(_) => said.word("answer"),
        Err(fault) => tell_ask_fault(fault, said),
    }
}

/// Why a call on a link failed.
pub(crate) fn tell_link_fault(fault: LinkFault, said: &mut Said) {
    said.fails(match fault {
        LinkFault::NoMemory => "NoMemory",
        LinkFault::Broken => "Broken",
        LinkFault::Refused => "Refused",
    });
}

/// The datanodes by their uuids.
pub(crate) fn tell_nodes(locs: &[DatanodeInfo], said: &mut Said) {
    for node in locs {
        said.word(node.id.datanode_uuid.as_str());
    }
}

/// A block's id and its stamp.
pub(crate) fn tell_block(block: &LocatedBlock, said: &mut Said) {
    said.number(block.b.block_id);
    said.number(block.b.generation_stamp);
}

/// What is wanted of a file: its length and how many blocks it has, or of each block its length, its name, or the datanodes that it
/// lies on.
pub(crate) fn tell_located(found: &LocatedBlocks, wanted: &str, said: &mut Said) {
    if wanted == "extent" {
        said.number(found.file_length);
        said.number(found.blocks.as_slice().len() as u64);
        return;
    }
    for block in found.blocks.as_slice() {
        match wanted {
            "lengths" => said.number(block.b.num_bytes),
            "names" => tell_block(block, said),
            _ => {
                said.word("on");
                tell_nodes(block.locs.as_slice(), said);
            }
        }
    }
}
