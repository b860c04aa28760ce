// Single products and quotients of elements of the field of 256, many times.
use hdfs_field::GF256;

/// What follows a number, by a simple rule.
fn next(number: u32) -> u32 {
    number.wrapping_mul(1664525).wrapping_add(1013904223)
}

/// Two elements from the upper half of a number.
fn two_elements(number: u32) -> (GF256, GF256) {
    let half = number / 65536;
    (
        GF256::from((half / 256) as u8),
        GF256::from((half % 256) as u8),
    )
}

/// The sum of so many products, of the elements that follow a number.
pub(crate) fn products(first: usize, times: usize) -> u64 {
    let mut number = (first % 65536) as u32;
    let mut sum = GF256::from(0);
    for _ in 0..times {
        number = next(number);
        let (a, b) = two_elements(number);
        sum += a * b;
    }
    u64::from(u8::from(sum))
}

/// The sum of so many quotients, less those by zero, of the elements that follow a number.
pub(crate) fn quotients(first: usize, times: usize) -> u64 {
    let mut number = (first % 65536) as u32;
    let mut sum = GF256::from(0);
    for _ in 0..times {
        number = next(number);
        let (a, b) = two_elements(number);
        if !b.is_zero() {
            sum += a / b;
        }
    }
    u64::from(u8::from(sum))
}
