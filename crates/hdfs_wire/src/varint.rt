//! Numbers as varints: groups of seven bits, the lowest first.

ghost use Rattle.std.specs.Prelude.{◌≡◌, ℕ, ◌<◌, ◌≤◌, ◌^◌, ◌++◌, ◌↔◌, Ok, Err, List, length, take, drop, IfOk, OnOk, OnErr};
ghost use Rattle.hdfs_wire.specs.Reading.{Gives};
ghost use Rattle.hdfs_wire.specs.Varint.{varint, varint_at, ReadsVarint, EndsInVarint, BeginsLongVarint};

use crate::values::NoMemory;
use crate::wire_fault::WireFault;

/// The groups of a number in the first places of an array, and how many they are.
fn groups_of(n: u64) -> ([u8; 10], usize)
    ensures within { result.1 ≤ 10 }
    ensures groups { take result.1 result.0 ≡ varint n }
{
    let mut groups = [0; 10];
    let mut len = 0;
    let mut rest = n;
    while rest >= 128 {
        groups[len] = (rest % 128) as u8 + 128;
        rest /= 128;
        len += 1;
    }
    groups[len] = rest as u8;
    (groups, len + 1)
}

/// How many bytes a number takes.
pub(crate) fn varint_len(n: u64) -> u64
    ensures within { result ≤ 10 }
    ensures is { result ≡ length (varint n) }
{
    let (_, len) = groups_of(n);
    len as u64
}

/// Writes a number at the end. After `NoMemory` nothing is written.
pub fn put_varint(out: &mut Vec<u8>, n: u64) -> Result<(), NoMemory>
    ensures ok { OnOk result (out.new.items ≡ out.old.items ++ varint n) }
    ensures err { OnErr result (out.new.items ≡ out.old.items) }
{
    let (groups, len) = groups_of(n);
    out.extend_from_slice(&groups[..len])?;
    Ok(())
}

/// The number at the front, and how many bytes it takes.
fn read_varint(bytes: &[u8]) -> Result<(u64, usize), WireFault>
    ensures some { IfOk result (λ r. 1 ≤ r.1) }
    ensures within { IfOk result (λ r. r.1 ≤ length bytes.now) }
    ensures exact { Gives (λ r. (r.0, drop r.1 bytes.now)) result (varint_at bytes.now) }
{
    let mut n = 0;
    let mut scale = 1;
    for i in 0..9 {
        if i >= bytes.len() {
            return Err(WireFault::Cut);
        }
        let byte = bytes[i];
        n += u64::from(byte % 128) * scale;
        if byte < 128 {
            return Ok((n, i + 1));
        }
        scale *= 128;
    }
    if bytes.len() < 10 {
        return Err(WireFault::Cut);
    }
    if bytes[9] > 1 {
        return Err(WireFault::LongVarint);
    }
    Ok((n + u64::from(bytes[9]) * scale, 10))
}

/// Reads the number at the front, and how many bytes it takes. Bytes may follow it. It takes no memory.
///
/// `Cut`: the bytes end inside the number. `LongVarint`: ten bytes don't end it, or the tenth is above 1.
pub fn take_varint(bytes: &[u8]) -> Result<(u64, usize), WireFault>
    ensures some { IfOk result (λ r. 1 ≤ r.1) }
    ensures within { IfOk result (λ r. r.1 ≤ length bytes.now) }

    // What is read stands for the number.
    ensures found { IfOk result (λ r. ReadsVarint (take r.1 bytes.now) r.0) }

    // When each refusal comes.
    ensures cut { (result ≡ Err WireFault.Cut) ↔ EndsInVarint bytes.now }
    ensures long { (result ≡ Err WireFault.LongVarint) ↔ BeginsLongVarint bytes.now }

    // There is no other answer.
    ensures exact { Gives (λ r. (r.0, drop r.1 bytes.now)) result (varint_at bytes.now) }
{
    read_varint(bytes)
}

/// What was written is read again, whatever follows it, and so no number's bytes begin another's.
pub fn varints_are_read_again()
    ensures again { (n : ℕ) (rest : List ℕ) → n < 2 ^ 64 → varint_at (varint n ++ rest) ≡ Ok (n, rest) }
    ensures apart { (m n : ℕ) (x y : List ℕ) → m < 2 ^ 64 → n < 2 ^ 64 → varint m ++ x ≡ varint n ++ y → (m ≡ n) × (x ≡ y) }
{}
