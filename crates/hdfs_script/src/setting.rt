//! The lines of a script that set something.
ghost use Rattle.std.specs.Prelude.{◌≡◌, ◌&&◌, ◌^◌, ◌+◌, ℕ, nat_le, length, IfOk, MatchOption};
ghost use Rattle.std.specs.List.{list_all};
ghost use Rattle.std.specs.Result.{result_ok};
ghost use Rattle.hdfs_script.specs.Commands.{flag_of};
ghost use Rattle.hdfs_script.specs.Entries as spec;
ghost use Rattle.hdfs_script.specs.Entries.{good};
ghost use Rattle.hdfs_script.specs.Numbers.{number as number_of};

use crate::command::flag;
use crate::entry::{Entry, Reading, Setting, bad};
use crate::numbers::number;
use crate::words::{
    BLOCK_SIZE_MOST, NAMENODE_MOST, NAMENODES_MOST, REPLICATION_MOST, SMALL_MOST, is_text, word,
};
use crate::wrong::Why;
use hdfs_cluster::{MAX_CHUNK, MAX_NODES, MAX_PACKET};
use hdfs_names::Policy;
use hdfs_wire::{NoMemory, Text};
use std::alloc::Global;

fn is_alphanumeric(c: u8) -> bool
    ensures { result ≡ spec.is_alphanumeric c }
{
    c.is_ascii_digit() || (b'A'..=b'Z').contains(&c) || (b'a'..=b'z').contains(&c)
}

fn are_alphanumeric(text: &[u8]) -> bool
    ensures { result ≡ list_all spec.is_alphanumeric text.now }
{
    text.iter().all(|c| is_alphanumeric(*c))
}

// Whether a text is one or more letters and digits.
fn is_user(text: &[u8]) -> bool
    ensures { result ≡ (nat_le 1 (length text.now) && list_all spec.is_alphanumeric text.now) }
{
    !text.is_empty() && are_alphanumeric(text)
}

// `set user NAME`
fn user_entry(alloc: Global, name: &[u8]) -> Result<Reading, NoMemory>
    ensures { IfOk result (λ reading. result_ok reading ≡ good (spec.user_entry name.now)) }
{
    if !is_user(name) {
        return Ok(bad(2, Why::User));
    }
    let Some(name) = word(name) else {
        return Ok(bad(2, Why::User));
    };
    let name = Text::from_str(alloc, name)?;
    Ok(Ok(Entry::Sets(Setting::User(name))))
}

// The number from 1 to `most` that a text writes.
fn from_one(most: u32, text: &[u8]) -> Option<u32>
    ensures { (setting : ℕ → Setting) → MatchOption result
        (spec.from_one setting (number_of 10 (most + 1) text.now) ≡ Entry.Bad)
        (λ n. spec.from_one setting (number_of 10 (most + 1) text.now) ≡ Entry.Sets (setting n)) }
{
    let n = number(10, u64::from(most), text)?;
    if n == 0 {
        return None;
    }
    Some(n as u32)
}

// `set namenodes NAMENODES`
fn namenodes_entry(namenodes: &[u8]) -> Reading
    ensures { result_ok result ≡ good (spec.from_one (λ n. Setting.Namenodes n) (number_of 10 17 namenodes.now)) }
{
    match from_one(NAMENODES_MOST, namenodes) {
        Some(namenodes) => Ok(Entry::Sets(Setting::Namenodes(namenodes))),
        None => bad(2, Why::Namenodes),
    }
}

// `set active ACTIVE`
fn active_entry(active: &[u8]) -> Reading
    ensures { result_ok result ≡ good (spec.from_zero (λ n. Setting.Active n) (number_of 10 16 active.now)) }
{
    let Some(active) = number(10, NAMENODE_MOST, active) else {
        return bad(2, Why::Active);
    };
    Ok(Entry::Sets(Setting::Active(active as u32)))
}

// `set nodes NODES`
fn nodes_entry(nodes: &[u8]) -> Reading
    ensures { result_ok result ≡ good (spec.from_one (λ n. Setting.Nodes n) (number_of 10 65 nodes.now)) }
{
    match from_one(MAX_NODES, nodes) {
        Some(nodes) => Ok(Entry::Sets(Setting::Nodes(nodes))),
        None => bad(2, Why::Nodes),
    }
}

// `set block BLOCK_SIZE`
fn block_entry(block_size: &[u8]) -> Reading
    ensures { result_ok result ≡ good (spec.from_one (λ n. Setting.Block n) (number_of 10 (2 ^ 63) block_size.now)) }
{
    let Some(block_size) = number(10, BLOCK_SIZE_MOST, block_size) else {
        return bad(2, Why::BlockSize);
    };
    if block_size == 0 {
        return bad(2, Why::BlockSize);
    }
    Ok(Entry::Sets(Setting::Block(block_size)))
}

// `set chunk CHUNK`
fn chunk_entry(chunk: &[u8]) -> Reading
    ensures { result_ok result ≡ good (spec.from_one (λ n. Setting.Chunk n) (number_of 10 (2 ^ 30 + 1) chunk.now)) }
{
    match from_one(MAX_CHUNK, chunk) {
        Some(chunk) => Ok(Entry::Sets(Setting::Chunk(chunk))),
        None => bad(2, Why::Chunk),
    }
}

// `set packet PACKET`
fn packet_entry(packet: &[u8]) -> Reading
    ensures { result_ok result ≡ good (spec.from_zero (λ n. Setting.Packet n) (number_of 10 (2 ^ 31) packet.now)) }
{
    let Some(packet) = number(10, MAX_PACKET as u64, packet) else {
        return bad(2, Why::Packet);
    };
    Ok(Entry::Sets(Setting::Packet(packet as u32)))
}

// `set replication REPLICATION`
fn replication_entry(replication: &[u8]) -> Reading
    ensures { result_ok result
        ≡ good (spec.from_one (λ n. Setting.Replication n) (number_of 10 65536 replication.now)) }
{
    match from_one(REPLICATION_MOST, replication) {
        Some(replication) => Ok(Entry::Sets(Setting::Replication(replication))),
        None => bad(2, Why::Replication),
    }
}

// `set encrypt ENCRYPT`
fn encrypt_entry(encrypt: &[u8]) -> Reading
    ensures { result_ok result ≡ good (spec.encrypt_entry (flag_of encrypt.now)) }
{
    match flag(encrypt) {
        Some(encrypt) => Ok(Entry::Sets(Setting::Encrypt(encrypt))),
        None => bad(2, Why::Encrypt),
    }
}

// `set rebuilds REBUILDS`
fn rebuilds_entry(rebuilds: &[u8]) -> Reading
    ensures { result_ok result ≡ good (spec.from_one (λ n. Setting.Rebuilds n) (number_of 10 1001 rebuilds.now)) }
{
    match from_one(SMALL_MOST, rebuilds) {
        Some(rebuilds) => Ok(Entry::Sets(Setting::Rebuilds(rebuilds))),
        None => bad(2, Why::Rebuilds),
    }
}

// `set window WINDOW`
fn window_entry(window: &[u8]) -> Reading
    ensures { result_ok result ≡ good (spec.from_one (λ n. Setting.Window n) (number_of 10 1001 window.now)) }
{
    match from_one(SMALL_MOST, window) {
        Some(window) => Ok(Entry::Sets(Setting::Window(window))),
        None => bad(2, Why::Window),
    }
}

// The policy of this name.
fn policy_named(name: &[u8]) -> Option<Policy>
    ensures { result ≡ spec.policy_named name.now }
{
    if is_text(name, "DEFAULT") {
        return Some(Policy::Default);
    }
    if is_text(name, "NEVER") {
        return Some(Policy::Never);
    }
    if is_text(name, "ALWAYS") {
        return Some(Policy::Always);
    }
    if is_text(name, "DISABLE") {
        return Some(Policy::Disable);
    }
    None
}

// `set policy POLICY`
fn policy_entry(name: &[u8]) -> Reading
    ensures { result_ok result ≡ good (spec.policy_entry (spec.policy_named name.now)) }
{
    match policy_named(name) {
        Some(policy) => Ok(Entry::Sets(Setting::Policy(policy))),
        None => bad(2, Why::Policy),
    }
}

// `set besteffort BEST_EFFORT`
fn best_effort_entry(best_effort: &[u8]) -> Reading
    ensures { result_ok result ≡ good (spec.best_effort_entry (flag_of best_effort.now)) }
{
    match flag(best_effort) {
        Some(best_effort) => Ok(Entry::Sets(Setting::BestEffort(best_effort))),
        None => bad(2, Why::BestEffort),
    }
}

// A setting of the session's writes.
fn writing_entry(key: &[u8], value: &[u8]) -> Reading
    ensures { result_ok result ≡ good (spec.writing_entry key.now value.now) }
{
    if is_text(key, "rebuilds") {
        return rebuilds_entry(value);
    }
    if is_text(key, "window") {
        return window_entry(value);
    }
    if is_text(key, "policy") {
        return policy_entry(value);
    }
    if is_text(key, "besteffort") {
        return best_effort_entry(value);
    }
    bad(1, Why::SetWords)
}

// A default of the cluster, or a setting of the session's writes.
fn default_entry(key: &[u8], value: &[u8]) -> Reading
    ensures { result_ok result ≡ good (spec.default_entry key.now value.now) }
{
    if is_text(key, "block") {
        return block_entry(value);
    }
    if is_text(key, "chunk") {
        return chunk_entry(value);
    }
    if is_text(key, "packet") {
        return packet_entry(value);
    }
    if is_text(key, "replication") {
        return replication_entry(value);
    }
    if is_text(key, "encrypt") {
        return encrypt_entry(value);
    }
    writing_entry(key, value)
}

// A setting of the cluster or of the session's writes.
fn cluster_entry(key: &[u8], value: &[u8]) -> Reading
    ensures { result_ok result ≡ good (spec.cluster_entry key.now value.now) }
{
    if is_text(key, "namenodes") {
        return namenodes_entry(value);
    }
    if is_text(key, "active") {
        return active_entry(value);
    }
    if is_text(key, "nodes") {
        return nodes_entry(value);
    }
    default_entry(key, value)
}

/// `set KEY VALUE`
pub(crate) fn set_entry(alloc: Global, key: &[u8], value: &[u8]) -> Result<Reading, NoMemory>
    ensures { IfOk result (λ reading. result_ok reading ≡ good (spec.set_entry key.now value.now)) }
{
    if is_text(key, "user") {
        return Ok(user_entry(alloc, value)?);
    }
    Ok(cluster_entry(key, value))
}
