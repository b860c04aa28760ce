//! What the namenodes of a cluster in memory answer with.
use crate::config::Config;
use crate::loaded::Kept;
use std::alloc::Global;

/// Where the memory for an answer comes from, the settings of the cluster, and the lines that were loaded into it.
#[derive(Drop)]
pub(crate) struct Known<'a> {
    pub(crate) alloc: Global,
    pub(crate) config: &'a Config,
    pub(crate) loaded: &'a [Kept],
}
