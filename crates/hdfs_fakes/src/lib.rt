//! What tests of the client begin with: clusters in memory, one of which holds a file, the settings of a session, and a cluster that gives
//! what it is told to give.
#![tactic(auto)]

mod fake_cluster;
mod making;

pub use fake_cluster::{FakeCluster, Look, Step, block};
pub use making::{cluster, held, holding, settings};
