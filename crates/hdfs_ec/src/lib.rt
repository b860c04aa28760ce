//! Erasure coding: the Reed-Solomon coder, the striped layout and its policies.
#![tactic(auto)]

mod coder;
mod fault;
mod places;
mod policy;
mod schema;
mod stripes;

pub use coder::{Coder, SHARD_LIMIT, any_rows_are_independent};
pub use fault::{EcFault, EcRefusal, ShardFault};
pub use hdfs_field::{Field, GF256, Matrix, Ring, Wrap32, are_even, products_are_unique};
pub use policy::{EcPolicy, EcSchemaMsg, resolve_ec_policy};
pub use schema::{CELL_LIMIT, EcSchema, shares_make_up_the_group};
