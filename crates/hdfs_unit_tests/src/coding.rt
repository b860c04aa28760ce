//! Codes: their matrices, and shards that are encoded and decoded. The words of schemas, policies and stripes stand in `layout.rt`, and the
//! loop over all choices of lost shards in `lost.rt`.
mod layout;
mod lost;

use crate::arguments::{behind, bytes_of, no_such_word, number, put, put_bytes, put_number};
use crate::field::put_entries;
use bytes::Bytes;
use hdfs_ec::{Coder, EcFault, EcRefusal, ShardFault};
use hdfs_field::{GF256, Matrix};
use hdfs_wire::{List, NoMemory, Text};
use std::alloc::Global;

/// The coding matrix of so many data and parity shards, behind the identity.
fn matrix(alloc: Global, out: &mut String, units: usize, parity: usize) -> Result<(), NoMemory> {
    if !Coder::is_code(units, parity) {
        return no_such_word(out);
    }
    let m = Coder::gen_rs_matrix(alloc, units, parity)?;
    put_entries(out, &m, units)
}

/// Rows 2, 3 and 4 of the coding matrix of 3+2.
fn chosen_rows(alloc: Global) -> Result<Matrix<GF256>, NoMemory> {
    let mut rows = Coder::gen_rs_matrix(alloc, 3, 2)?;
    rows.select_rows(&[2, 3, 4]);
    Ok(rows)
}

/// The inverse of rows 2, 3 and 4.
fn inverse_rows(alloc: Global) -> Result<Matrix<GF256>, NoMemory> {
    let coder = Coder::new(alloc, 3, 2)?;
    let inverse = coder.invert_rows(alloc, &[2, 3, 4]);
    drop(coder);
    Ok(inverse?)
}

fn put_product(
    alloc: Global,
    out: &mut String,
    a: &Matrix<GF256>,
    b: &Matrix<GF256>,
) -> Result<(), NoMemory> {
    if a.cols() != b.rows() {
        return no_such_word(out);
    }
    let product = a.mul(alloc, b)?;
    put_entries(out, &product, 0)
}

/// The rows, and their product with their inverse.
fn put_inverted(alloc: Global, out: &mut String, rows: &Matrix<GF256>) -> Result<(), NoMemory> {
    put_entries(out, rows, 0)?;
    let inverse = inverse_rows(alloc)?;
    put_product(alloc, out, rows, &inverse)
}

fn inverted(alloc: Global, out: &mut String) -> Result<(), NoMemory> {
    let rows = chosen_rows(alloc)?;
    put_inverted(alloc, out, &rows)
}

/// The code of the data and parity shards that the first two words say, if there is one.
fn coder(alloc: Global, argument: &str) -> Option<Coder> {
    let (units, parity) = (number(argument, 0) as usize, number(argument, 1) as usize);
    if !Coder::is_code(units, parity) {
        return None;
    }
    Coder::new(alloc, units, parity).ok()
}

/// The bytes of a word.
fn shard_of(alloc: Global, word: &str) -> Result<Bytes, NoMemory> {
    Ok(Bytes::from_vec(bytes_of(alloc, word)?)?)
}

/// The shard that a word stands for, `-` for none.
fn place_of(alloc: Global, word: &str) -> Result<Option<Bytes>, NoMemory> {
    if word == "-" {
        return Ok(None);
    }
    Ok(Some(shard_of(alloc, word)?))
}

fn places_of(alloc: Global, words: &str) -> Result<Vec<Option<Bytes>>, NoMemory> {
    let mut places = Vec::new(alloc);
    for word in words.split(' ') {
        places.push(place_of(alloc, word)?)?;
    }
    Ok(places)
}

fn put_place(out: &mut String, place: &Option<Bytes>) -> Result<(), NoMemory> {
    match place {
        Some(shard) => put_bytes(out, shard.as_slice()),
        None => put(out, None),
    }
}

fn put_places(out: &mut String, places: &[Option<Bytes>]) -> Result<(), NoMemory> {
    for place in places {
        put_place(out, place)?;
    }
    Ok(())
}

fn put_shards(out: &mut String, shards: &[Bytes]) -> Result<(), NoMemory> {
    for shard in shards {
        put_bytes(out, shard.as_slice())?;
    }
    Ok(())
}

/// The numbers of the shards for want of which others were refused.
fn put_missing(out: &mut String, fault: &ShardFault) -> Result<(), NoMemory> {
    out.push_str("refused ")?;
    for number in fault.missing.as_slice() {
        put_number(out, u64::from(*number))?;
    }
    Ok(())
}

/// Whether shards were decoded.
fn put_answer(out: &mut String, answer: &Result<(), EcFault>) -> Result<(), NoMemory> {
    match answer {
        Ok(()) => put(out, Some("decoded")),
        Err(EcFault::ErasureCodingError(fault)) => put_missing(out, fault),
        Err(_) => no_such_word(out),
    }
}

/// Decodes, and tells the answer and the places behind the call.
fn decode_places(
    alloc: Global,
    out: &mut String,
    coder: &Coder,
    places: &mut [Option<Bytes>],
) -> Result<(), NoMemory> {
    if !coder.are_places(places) {
        return no_such_word(out);
    }
    let answer = coder.decode(alloc, places);
    let told = put_answer(out, &answer);
    drop(answer);
    told?;
    put_places(out, places)
}

fn decode(alloc: Global, out: &mut String, coder: &Coder, words: &str) -> Result<(), NoMemory> {
    let mut places = places_of(alloc, words)?;
    decode_places(alloc, out, coder, &mut places)
}

/// The parity shards of data shards; none where these are no data shards.
fn parity_of(alloc: Global, coder: &Coder, shards: &[Bytes]) -> Result<Vec<Bytes>, NoMemory> {
    if !coder.are_data_shards(shards) {
        return Ok(Vec::new(alloc));
    }
    coder.encode(alloc, shards)
}

/// Puts the parity shards behind the data shards.
fn complete(alloc: Global, coder: &Coder, shards: &mut Vec<Bytes>) -> Result<(), NoMemory> {
    for other in parity_of(alloc, coder, shards)? {
        shards.push(other)?;
    }
    Ok(())
}

fn shards_of(alloc: Global, words: &str) -> Result<Vec<Bytes>, NoMemory> {
    let mut shards = Vec::new(alloc);
    for word in words.split(' ') {
        shards.push(shard_of(alloc, word)?)?;
    }
    Ok(shards)
}

/// The data shards, and their parity shards behind them.
fn encode(alloc: Global, out: &mut String, coder: &Coder, words: &str) -> Result<(), NoMemory> {
    let mut shards = shards_of(alloc, words)?;
    complete(alloc, coder, &mut shards)?;
    put_shards(out, &shards)
}

/// What is answered of a code.
fn tell_of(
    alloc: Global,
    out: &mut String,
    word: &str,
    argument: &str,
    coder: &Coder,
) -> Result<(), NoMemory> {
    match word {
        "decode" => decode(alloc, out, coder, behind(argument, 2)),
        "encode" => encode(alloc, out, coder, behind(argument, 2)),
        _ => lost::tell(alloc, out, coder, argument),
    }
}

/// The code that the first two words say.
fn of_coder(alloc: Global, out: &mut String, word: &str, argument: &str) -> Result<(), NoMemory> {
    match coder(alloc, argument) {
        Some(coder) => tell_of(alloc, out, word, argument, &coder),
        None => no_such_word(out),
    }
}

fn put_fault(out: &mut String, fault: &EcFault) -> Result<(), NoMemory> {
    Ok(write!(out, "{fault}")?)
}

/// The refusal for want of the shards 1, 3 and 8.
fn missing(alloc: Global, out: &mut String) -> Result<(), NoMemory> {
    let missing = List::from_vec(Vec::from_slice(alloc, &[1, 3, 8])?);
    put_fault(out, &EcFault::ErasureCodingError(ShardFault { missing }))
}

/// The refusal of a codec.
fn codec(alloc: Global, out: &mut String, name: &str) -> Result<(), NoMemory> {
    let name = Text::from_str(alloc, name)?;
    put_fault(
        out,
        &EcFault::UnsupportedErasureCodingPolicy(EcRefusal::Codec(name)),
    )
}

/// The text of a refusal.
fn told(alloc: Global, out: &mut String, word: &str) -> Result<(), NoMemory> {
    match word {
        "memory" => put_fault(out, &EcFault::NoMemory),
        "missing" => missing(alloc, out),
        _ => codec(alloc, out, word),
    }
}

pub(crate) fn tell(
    alloc: Global,
    out: &mut String,
    word: &str,
    argument: &str,
) -> Result<(), NoMemory> {
    match word {
        "matrix" => matrix(
            alloc,
            out,
            number(argument, 0) as usize,
            number(argument, 1) as usize,
        ),
        "inverted" => inverted(alloc, out),
        "fault" => told(alloc, out, argument),
        "decode" | "encode" | "lost" => of_coder(alloc, out, word, argument),
        _ => layout::tell(alloc, out, word, argument),
    }
}
