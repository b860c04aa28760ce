//! What a file is opened with, and what comes of it.

use hdfs_file_writer::FileWriter;
use hdfs_rebuild::RebuildSettings;
use hdfs_wire::Text;

/// What is settled of a writer before its file is opened: how the pipelines of its blocks are rebuilt, and how often another new block is
/// tried, at most, where the first pipeline of one can't be set up.
#[derive(Clone, Copy)]
pub struct WriteTerms {
    pub rebuilding: RebuildSettings,
    pub setup_limit: u32,
}

/// What an answer tells of a file: its id, the namespace that it stands in, if it stands in one, and whether it is encrypted.
#[derive(Drop)]
pub struct ToldFile {
    pub file_id: Option<u64>,
    pub namespace: Option<Text>,
    pub encrypted: bool,
}

/// A file that was opened to be written: its writer, and what was told of it.
#[derive(Drop)]
pub struct OpenedFile {
    pub file: FileWriter,
    pub told: ToldFile,
}
