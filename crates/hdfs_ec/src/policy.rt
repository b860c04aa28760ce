//! Erasure coding policies as namenodes tell them.

ghost use Rattle.std.specs.Prelude.{◌≡◌, ◌≤◌, ◌⊎◌, Ok, Err, IfOk, IfErr};
ghost use Rattle.hdfs_ec.specs.Policies.{numbered, schema_of, schema_of_id, schema_of_message, is_schema};
ghost use Rattle.hdfs_ec.specs.Refusals.{RefusesPolicy};

use crate::coder::SHARD_LIMIT;
use crate::fault::{EcFault, EcRefusal};
use crate::schema::{CELL_LIMIT, EcSchema};
use hdfs_wire::Text;
use std::alloc::Global;

/// The schema of a policy, as a message carries it.
#[derive(Debug, Drop)]
pub struct EcSchemaMsg {
    pub codec_name: Text,
    pub data_units: u32,
    pub parity_units: u32,
}

/// A policy as a message carries it: its id, its schema where it has one, and the size of its cells in bytes.
#[derive(Debug, Drop)]
pub struct EcPolicy {
    pub id: u32,
    pub schema: Option<EcSchemaMsg>,
    pub cell_size: u32,
}

/// The cells of the numbered policies, in bytes.
const DEFAULT_CELL_SIZE: usize = 1024 * 1024;

/// Whether shards can be laid out by these numbers.
fn is_schema(data_units: u32, parity_units: u32, cell_size: u32) -> bool
    ensures { result ≡ is_schema data_units parity_units cell_size }
{
    data_units >= 1
        && parity_units >= 1
        && data_units as usize + parity_units as usize <= SHARD_LIMIT
        && cell_size >= 1
        && cell_size as usize <= CELL_LIMIT
}

/// A schema with the cells of the numbered policies.
fn numbered(
    alloc: Global,
    codec: &str,
    data_units: usize,
    parity_units: usize,
) -> Result<EcSchema, EcFault>
    ensures ok { IfOk result (λ s. numbered codec.now data_units parity_units ≡ Ok s) }
    ensures refused { IfErr result (λ e. e ≡ EcFault.NoMemory) }
{
    Ok(EcSchema {
        codec_name: Text::from_str(alloc, codec)?,
        data_units,
        parity_units,
        cell_size: DEFAULT_CELL_SIZE,
    })
}

/// The schema that an id stands for.
fn schema_of_id(alloc: Global, id: u32) -> Result<EcSchema, EcFault>
    ensures ok { IfOk result (λ s. schema_of_id id ≡ Ok s) }
    ensures refused { IfErr result (RefusesPolicy (schema_of_id id)) }
{
    match id {
        1 => numbered(alloc, "rs", 6, 3),
        2 => numbered(alloc, "rs", 3, 2),
        3 => numbered(alloc, "rs-legacy", 6, 3),
        4 => numbered(alloc, "xor", 2, 1),
        5 => numbered(alloc, "rs", 10, 4),
        _ => Err(EcFault::UnsupportedErasureCodingPolicy(EcRefusal::Id(id))),
    }
}

/// The schema of a message, with this size of cells.
fn schema_of_message(
    alloc: Global,
    schema: &EcSchemaMsg,
    cell_size: u32,
) -> Result<EcSchema, EcFault>
    ensures ok { IfOk result (λ s. schema_of_message schema.now cell_size ≡ Ok s) }
    ensures refused { IfErr result (RefusesPolicy (schema_of_message schema.now cell_size)) }
{
    if !is_schema(schema.data_units, schema.parity_units, cell_size) {
        return Err(EcFault::UnsupportedErasureCodingPolicy(EcRefusal::Range));
    }
    Ok(EcSchema {
        codec_name: schema.codec_name.copy(alloc)?,
        data_units: schema.data_units as usize,
        parity_units: schema.parity_units as usize,
        cell_size: cell_size as usize,
    })
}

/// The schema of a policy: the one that it carries, with its size of cells, or the one that its id stands for, with cells
/// of 1,048,576 bytes. The ids are 1 (`rs` 6+3), 2 (`rs` 3+2), 3 (`rs-legacy` 6+3), 4 (`xor` 2+1) and 5 (`rs` 10+4).
///
/// `UnsupportedErasureCodingPolicy`: with `Id`, there is no schema and the id is another; with `Range`, the schema has no
/// data or no parity shard, more than 256 together, or cells of 0 or more than 2^30 bytes.
pub fn resolve_ec_policy(alloc: Global, policy: &EcPolicy) -> Result<EcSchema, EcFault>
    ensures ok { IfOk result (λ s. schema_of policy.now.schema policy.now.id policy.now.cell_size ≡ Ok s) }
    ensures refused { IfErr result (RefusesPolicy (schema_of policy.now.schema policy.now.id policy.now.cell_size)) }
{
    match &policy.schema {
        Some(schema) => schema_of_message(alloc, schema, policy.cell_size),
        None => schema_of_id(alloc, policy.id),
    }
}
