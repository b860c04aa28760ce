//! All choices of shards to lose.
use crate::arguments::{put, put_number, small};
use crate::coding::complete;
use bytes::Bytes;
use hdfs_ec::{Coder, EcFault};
use hdfs_wire::NoMemory;
use std::alloc::Global;

/// Shard `place`: bytes by a simple rule.
fn shard(alloc: Global, place: u32, size: u8) -> Result<Bytes, NoMemory> {
    let mut bytes = Vec::new(alloc);
    let first = (place % 256) as u8;
    for q in 0..size {
        let byte = first
            .wrapping_mul(31)
            .wrapping_add(q.wrapping_mul(7))
            .wrapping_add(5);
        bytes.push(byte)?;
    }
    Ok(Bytes::from_vec(bytes)?)
}

/// So many data shards.
fn data_shards(alloc: Global, units: u32, size: u8) -> Result<Vec<Bytes>, NoMemory> {
    let mut shards = Vec::new(alloc);
    for place in 0..units {
        shards.push(shard(alloc, place, size)?)?;
    }
    Ok(shards)
}

/// A shard, or none where it is lost.
fn kept(shard: &Bytes, is_lost: bool) -> Result<Option<Bytes>, NoMemory> {
    if is_lost {
        return Ok(None);
    }
    Ok(Some(shard.clone()?))
}

/// The places that are left when those of the bits are lost.
fn left(alloc: Global, shards: &[Bytes], lost: u32) -> Result<Vec<Option<Bytes>>, NoMemory> {
    let mut places = Vec::new(alloc);
    let mut bits = lost;
    for shard in shards {
        places.push(kept(shard, bits % 2 == 1)?)?;
        bits /= 2;
    }
    Ok(places)
}

/// The numbers of the bits below `count` that are set.
fn numbers_of(alloc: Global, bits: u32, count: u32) -> Result<Vec<u32>, NoMemory> {
    let mut numbers = Vec::new(alloc);
    let mut rest = bits;
    for n in 0..count {
        if rest % 2 == 1 {
            numbers.push(n)?;
        }
        rest /= 2;
    }
    Ok(numbers)
}

/// Numbers of data and parity shards, and all choices of shards to lose.
#[derive(Clone, Copy)]
struct Code {
    units: u32,
    parity: u32,
    choices: u32,
}

/// How many bytes shards have.
const SIZES: &[u8] = &[1, 2, 33];

/// Whether exactly this shard stands in the place, or nothing.
fn is_there(place: &Option<Bytes>, shard: &Bytes, wanted: bool) -> bool {
    match place {
        Some(found) => wanted && found.as_slice() == shard.as_slice(),
        None => !wanted,
    }
}

/// Whether the shards that weren't lost are there, and so many of the first ones.
fn are_there(places: &[Option<Bytes>], shards: &[Bytes], lost: u32, restored: usize) -> bool {
    let mut bits = lost;
    for (n, (place, shard)) in places.iter().zip(shards).enumerate() {
        if !is_there(place, shard, n < restored || bits % 2 == 0) {
            return false;
        }
        bits /= 2;
    }
    true
}

/// Whether shards were decoded; where numbers are given, whether they were refused for want of shards, and the refusal names these.
fn is_answer(answer: &Result<(), EcFault>, missing: Option<&[u32]>) -> bool {
    match answer {
        Ok(()) => missing.is_none(),
        Err(EcFault::ErasureCodingError(fault)) => missing == Some(fault.missing.as_slice()),
        Err(_) => false,
    }
}

/// Decodes, and says whether that is answered.
fn answers(
    alloc: Global,
    coder: &Coder,
    places: &mut [Option<Bytes>],
    missing: Option<&[u32]>,
) -> bool {
    if !coder.are_places(places) {
        return false;
    }
    let answer = coder.decode(alloc, places);
    let holds = is_answer(&answer, missing);
    drop(answer);
    holds
}

/// How many of the first shards are there behind decoding without the shards of these numbers: the data shards, or none where too
/// few were there, which a refusal with these numbers says. None for another answer.
fn come_back(
    alloc: Global,
    coder: &Coder,
    code: &Code,
    places: &mut [Option<Bytes>],
    numbers: &[u32],
) -> Option<usize> {
    let gone = numbers.len() > code.parity as usize && numbers.iter().any(|n| *n < code.units);
    let (missing, restored) = if gone {
        (Some(numbers), 0)
    } else {
        (None, code.units as usize)
    };
    answers(alloc, coder, places, missing).then_some(restored)
}

/// Whether decoding without these shards is right.
fn is_right(alloc: Global, coder: &Coder, code: &Code, shards: &[Bytes], lost: u32) -> bool {
    let count = code.units.saturating_add(code.parity);
    match (left(alloc, shards, lost), numbers_of(alloc, lost, count)) {
        (Ok(mut places), Ok(numbers)) => {
            match come_back(alloc, coder, code, &mut places, &numbers) {
                Some(restored) => are_there(&places, shards, lost, restored),
                None => false,
            }
        }
        _ => false,
    }
}

/// The first choice of shards to lose that isn't right.
fn bad_choice_of(alloc: Global, coder: &Coder, code: &Code, shards: &[Bytes]) -> Option<u32> {
    for lost in 0..code.choices {
        if !is_right(alloc, coder, code, shards, lost) {
            return Some(lost);
        }
    }
    None
}

/// The same of shards of this size, with their parity shards.
fn bad_choice(
    alloc: Global,
    coder: &Coder,
    code: &Code,
    size: u8,
) -> Result<Option<u32>, NoMemory> {
    let mut shards = data_shards(alloc, code.units, size)?;
    complete(alloc, coder, &mut shards)?;
    Ok(bad_choice_of(alloc, coder, code, &shards))
}

fn put_choice(out: &mut String, choice: Option<u32>) -> Result<(), NoMemory> {
    match choice {
        Some(lost) => put_number(out, u64::from(lost)),
        None => put(out, None),
    }
}

/// The first choice of shards to lose that isn't right, of shards of 1, 2 and 33 bytes: of a code of so many data and parity shards, with so many
/// choices.
pub(crate) fn tell(
    alloc: Global,
    out: &mut String,
    coder: &Coder,
    argument: &str,
) -> Result<(), NoMemory> {
    let code = Code {
        units: small(argument, 0),
        parity: small(argument, 1),
        choices: small(argument, 2),
    };
    for size in SIZES {
        put_choice(out, bad_choice(alloc, coder, &code, *size)?)?;
    }
    Ok(())
}
