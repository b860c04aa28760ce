//! Shards of a code, computed many times.

use crate::fault::Fault;
use bytes::Bytes;
use hdfs_ec::Coder;
use std::alloc::Global;

/// A code by its numbers of data and parity shards.
#[derive(Clone, Copy)]
pub(crate) struct Code {
    data: usize,
    parity: usize,
}

/// The code that follows a word, as in `encode_6_3`.
pub(crate) fn code_of(numbers: &str) -> Result<Code, Fault> {
    let (data, parity) = match numbers {
        "_3_2" => (3, 2),
        "_6_3" => (6, 3),
        "_10_4" => (10, 4),
        _ => return Err(Fault::Words),
    };
    Ok(Code { data, parity })
}

fn coder_of(alloc: Global, code: Code) -> Result<Coder, Fault> {
    if !Coder::is_code(code.data, code.parity) {
        return Err(Fault::Words);
    }
    Ok(Coder::new(alloc, code.data, code.parity)?)
}

/// The data shards, of so many bytes each.
fn data_shards(alloc: Global, code: Code, size: usize) -> Result<Vec<Bytes>, Fault> {
    let mut shards = Vec::new(alloc);
    for place in 0..code.data {
        let byte = (place % 256) as u8;
        let bytes = vec![in alloc; byte.wrapping_mul(37); size]?;
        shards.push(Bytes::from_vec(bytes)?)?;
    }
    Ok(shards)
}

/// The parity shards of data shards.
fn encoded(alloc: Global, coder: &Coder, shards: &[Bytes]) -> Result<Vec<Bytes>, Fault> {
    if !coder.are_data_shards(shards) {
        return Err(Fault::Words);
    }
    Ok(coder.encode(alloc, shards)?)
}

/// Encodes shards, and counts the bytes of parity.
fn encode_once(alloc: Global, coder: &Coder, shards: &[Bytes]) -> Result<u64, Fault> {
    let mut bytes = 0u64;
    for shard in encoded(alloc, coder, shards)?.as_slice() {
        bytes = bytes.saturating_add(shard.len() as u64);
    }
    Ok(bytes)
}

/// Encodes shards so many times, and counts the bytes of parity.
fn encode_often(
    alloc: Global,
    coder: &Coder,
    shards: &[Bytes],
    times: usize,
) -> Result<u64, Fault> {
    let mut bytes = 0u64;
    for _ in 0..times {
        bytes = bytes.saturating_add(encode_once(alloc, coder, shards)?);
    }
    Ok(bytes)
}

/// The same of shards of this size.
fn encode_by(
    alloc: Global,
    coder: &Coder,
    code: Code,
    size: usize,
    times: usize,
) -> Result<u64, Fault> {
    let shards = data_shards(alloc, code, size)?;
    encode_often(alloc, coder, &shards, times)
}

/// Encodes shards of this size so many times, and counts the bytes of parity.
pub(crate) fn encode(alloc: Global, code: Code, size: usize, times: usize) -> Result<u64, Fault> {
    let coder = coder_of(alloc, code)?;
    encode_by(alloc, &coder, code, size, times)
}

/// Puts the place of a shard behind the others, an empty one where it is lost.
fn push_place(places: &mut Vec<Option<Bytes>>, shard: &Bytes, is_lost: bool) -> Result<(), Fault> {
    if is_lost {
        return Ok(places.push(None)?);
    }
    Ok(places.push(Some(shard.clone()?))?)
}

/// The places in which the first data shards are missing, as many as there are parity shards.
fn left(alloc: Global, data: &[Bytes], parity: &[Bytes]) -> Result<Vec<Option<Bytes>>, Fault> {
    let mut places = Vec::new(alloc);
    for (place, shard) in data.iter().enumerate() {
        push_place(&mut places, shard, place < parity.len())?;
    }
    for shard in parity {
        push_place(&mut places, shard, false)?;
    }
    Ok(places)
}

/// Fills the missing places, and counts the bytes of the first shard.
fn decoded(alloc: Global, coder: &Coder, places: &mut [Option<Bytes>]) -> Result<u64, Fault> {
    if !coder.are_places(places) {
        return Err(Fault::Words);
    }
    coder.decode(alloc, places)?;
    match places.first() {
        Some(Some(shard)) => Ok(shard.len() as u64),
        _ => Err(Fault::Words),
    }
}

/// Decodes lost data shards, and counts the bytes of the first.
fn decode_once(
    alloc: Global,
    coder: &Coder,
    shards: &[Bytes],
    parity: &[Bytes],
) -> Result<u64, Fault> {
    let mut places = left(alloc, shards, parity)?;
    decoded(alloc, coder, &mut places)
}

/// Decodes lost data shards so many times, and counts the bytes of the first.
fn decode_often(
    alloc: Global,
    coder: &Coder,
    shards: &[Bytes],
    parity: &[Bytes],
    times: usize,
) -> Result<u64, Fault> {
    let mut bytes = 0u64;
    for _ in 0..times {
        bytes = bytes.saturating_add(decode_once(alloc, coder, shards, parity)?);
    }
    Ok(bytes)
}

/// Encodes shards, and then decodes as many lost ones as there are parity shards so many times.
fn decode_all(alloc: Global, coder: &Coder, shards: &[Bytes], times: usize) -> Result<u64, Fault> {
    let parity = encoded(alloc, coder, shards)?;
    decode_often(alloc, coder, shards, parity.as_slice(), times)
}

/// The same of shards of this size.
fn decode_by(
    alloc: Global,
    coder: &Coder,
    code: Code,
    size: usize,
    times: usize,
) -> Result<u64, Fault> {
    let shards = data_shards(alloc, code, size)?;
    decode_all(alloc, coder, &shards, times)
}

/// Decodes as many lost data shards as there are parity shards, of this size, so many times, and counts the bytes of the first.
pub(crate) fn decode(alloc: Global, code: Code, size: usize, times: usize) -> Result<u64, Fault> {
    let coder = coder_of(alloc, code)?;
    decode_by(alloc, &coder, code, size, times)
}
