//! What a cluster in memory keeps of the lines that were loaded into it.
use bytes::Bytes;
use hdfs_cluster::{Attributes, FaultLine};
use hdfs_wire::Text;

/// A line that was loaded. The bytes of a file are shared with the datanode that holds them.
#[derive(Drop)]
pub enum Kept {
    Dir {
        path: Text,
    },
    File {
        path: Text,
        attributes: Attributes,
        bytes: Bytes,
    },
    Short {
        path: Text,
        block: u32,
        node: u32,
        len: u64,
    },
    Fault(FaultLine),
}
