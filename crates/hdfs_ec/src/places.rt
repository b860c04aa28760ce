//! Places that may hold a shard.

ghost use Rattle.std.specs.Prelude.{IfSome, IfNone, ◌↔◌, IsTrue, ◌≡◌, ℕ, ◌+◌, ◌^◌, ◌<◌, ◌≤◌, List as Items, length, slice_set, IfOk, All};
ghost use Rattle.std.specs.List.Sorted.{IsStrictlyIncreasing};
ghost use Rattle.hdfs_ec.specs.Coding.{empty_places, place};
ghost use Rattle.hdfs_ec.specs.Places.{held_from, held_shards, ArePut, AreLong, AreWhole, HaveOneLength};

use bytes::Bytes;
use hdfs_wire::{List, NoMemory};
use std::alloc::Global;

/// The length of the first shard in the places.
fn first_length(places: &[Option<Bytes>]) -> Option<usize>
    ensures some { IfSome result (λ n. (i : ℕ) × (shard : Items ℕ) × (place places.now i ≡ Some shard) × (length shard ≡ n)) }
    ensures none { IfNone result (AreLong 1 places.now) }
{
    for i in 0..places.len() {
        if let Some(shard) = &places[i] {
            return Some(shard.len());
        }
    }
    None
}

/// Whether the shards in the places have this length.
fn are_long(places: &[Option<Bytes>], size: usize) -> bool
    ensures { IsTrue result ↔ AreLong size places.now }
{
    for i in 0..places.len() {
        if let Some(shard) = &places[i] {
            if shard.len() != size {
                return false;
            }
        }
    }
    true
}

/// Whether the lengths of the shards in the places are multiples of a cell's.
pub(crate) fn are_whole(places: &[Option<Bytes>], cell: usize) -> bool
    requires { 0 < cell }
    ensures { IsTrue result ↔ AreWhole cell places.now }
{
    for i in 0..places.len() {
        if let Some(shard) = &places[i] {
            if shard.len() % cell != 0 {
                return false;
            }
        }
    }
    true
}

/// Whether the shards in the places have one length, not 0.
pub(crate) fn have_one_length(places: &[Option<Bytes>]) -> bool
    ensures { IsTrue result ↔ HaveOneLength places.now }
{
    match first_length(places) {
        None => true,
        Some(size) => size > 0 && are_long(places, size),
    }
}

/// The numbers of the places that hold a shard, rising.
pub(crate) fn held_numbers(alloc: Global, places: &[Option<Bytes>]) -> Result<Vec<usize>, NoMemory>
    ensures { IfOk result (λ v. v.items ≡ held_from 0 places.now) }
{
    let mut numbers = Vec::with_capacity(alloc, places.len())?;
    for i in 0..places.len() {
        if places[i].is_some() {
            numbers.push(i)?;
        }
    }
    Ok(numbers)
}

/// The numbers of the empty places, rising.
pub(crate) fn empty_numbers(alloc: Global, places: &[Option<Bytes>]) -> Result<Vec<usize>, NoMemory>
    ensures { IfOk result (λ v. v.items ≡ empty_places places.now) }
{
    let mut numbers = Vec::with_capacity(alloc, places.len())?;
    for i in 0..places.len() {
        if places[i].is_none() {
            numbers.push(i)?;
        }
    }
    Ok(numbers)
}

/// The numbers of the empty places, rising, as a refusal names them.
pub(crate) fn list_empty(alloc: Global, places: &[Option<Bytes>]) -> Result<List<u32>, NoMemory>
    requires { length places.now < 2 ^ 32 }
    ensures { IfOk result (λ l. l ≡ empty_places places.now) }
{
    let mut numbers = Vec::with_capacity(alloc, places.len())?;
    for i in 0..places.len() {
        if places[i].is_none() {
            numbers.push(i as u32)?;
        }
    }
    Ok(List::from_vec(numbers))
}

/// The shards in their places, without a copy of their bytes.
pub(crate) fn shards_of(alloc: Global, places: &[Option<Bytes>]) -> Result<Vec<Bytes>, NoMemory>
    ensures { IfOk result (λ v. v.items ≡ held_shards places.now) }
{
    let mut shards = Vec::with_capacity(alloc, places.len())?;
    for i in 0..places.len() {
        match &places[i] {
            Some(shard) => shards.push(shard.clone()?)?,
            None => {}
        }
    }
    Ok(shards)
}

/// Puts a shard into a place.
fn put_one(places: &mut [Option<Bytes>], i: usize, shard: Bytes)
    requires { i < length places.old }
    ensures { places.new ≡ slice_set places.old i (Some shard) }
{
    places[i] = Some(shard);
}

/// Puts each shard into the place of its number. It takes no memory. Condition: as many numbers as shards, rising, and those of places.
pub(crate) fn put(places: &mut [Option<Bytes>], numbers: &[usize], shards: Vec<Bytes>)
    requires count { length shards.items ≡ length numbers.now }
    requires rising { IsStrictlyIncreasing numbers.now }
    requires within { All (λ i. i < length places.old) numbers.now }
    ensures { ArePut (length numbers.now) numbers.now shards.items places.old places.new }
{
    for (i, shard) in numbers.iter().zip(shards) {
        put_one(places, *i, shard);
    }
}
