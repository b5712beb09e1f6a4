//! Numbers of the binary format.

ghost use Rattle.std.specs.Prelude.{◌≡◌, ◌≢◌, ◌<◌, ◌≤◌, ◌+◌, ◌-◌, ◌*◌, ◌^◌, drop, length, map, take};
ghost use Rattle.zir_tree.specs.declared.types.Base.TheVariants.{Bit};
ghost use Rattle.zir_meaning.specs.Items.{pieces, width as width_of};
ghost use Rattle.zir_meaning.specs.Samples.{bits_of, number_at, number_of, with_sign as signed_of, without_sign as unsigned_of};
ghost use Rattle.zir_samples.specs.Finding.{FindsBits};

use crate::finding::Found;
use zir_tree::types::Base;

/// How many bits a number of this type has, a complex type having two of them, and 0 where a stream has no such type.
pub fn width(base: Base) -> usize
    ensures width { result ≡ width_of base }
    ensures most { result ≤ 64 }
{
    match base {
        Base::Bit => 1,
        Base::Int8 => 8,
        Base::Int16 | Base::Complex16 => 16,
        Base::Int32 | Base::Complex32 => 32,
        Base::Int64 => 64,
        Base::Unit | Base::Bool | Base::Struct(_) => 0,
    }
}

/// Reads the first element, of as many numbers as `into` has room for, from a bit of the first byte on.
pub fn find_in_bits(base: Base, bytes: &[u8], bit: u8, ended: bool, into: &mut [i64]) -> Found
    requires stream { 0 < width_of base }
    requires some { 0 < length into.old }
    requires most { length into.old ≤ 65536 }
    requires within { bit < 8 }
    ensures { FindsBits base (drop bit (bits_of bytes.now)) ended (length into.old) result into.new }
{
    let bits = into.len() * width(base);
    let first = usize::from(bit);
    if bytes.len() < (first + bits).div_ceil(8) {
        return if ended { Found::End } else { Found::More };
    }
    read_numbers(base, bytes, first, into);
    Found::Element(bits as u64)
}

// Reads as many numbers as there is room for, from a bit on.
fn read_numbers(base: Base, bytes: &[u8], first: usize, into: &mut [i64])
    requires stream { 0 < width_of base }
    requires most { length into.old ≤ 65536 }
    requires near { first < 8 }
    requires enough { first + length into.old * width_of base ≤ 8 * length bytes.now }
    ensures { into.new ≡ map (number_at base) (pieces (length into.old) (width_of base) (drop first (bits_of bytes.now))) }
{
    let width = width(base);
    for (i, cell) in into.iter_mut().enumerate() {
        *cell = number_from(base, bytes, first + i * width);
    }
}

/// The number of this type that stands from a bit on.
pub fn number_from(base: Base, bytes: &[u8], at: usize) -> i64
    requires stream { 0 < width_of base }
    requires near { at < 2 ^ 32 }
    requires enough { at + width_of base ≤ 8 * length bytes.now }
    ensures { result ≡ number_at base (take (width_of base) (drop at (bits_of bytes.now))) }
{
    match base {
        Base::Bit => i64::from((bytes[at / 8] >> (at % 8)) % 2),
        _ => {
            let width = width(base);
            with_sign(width, whole_number(bytes, at, width / 8))
        }
    }
}

// The number without a sign of so many bytes from a bit on.
fn whole_number(bytes: &[u8], at: usize, count: usize) -> u64
    requires near { at < 2 ^ 32 }
    requires most { count ≤ 8 }
    requires enough { at + 8 * count ≤ 8 * length bytes.now }
    ensures number { result ≡ number_of (take (8 * count) (drop at (bits_of bytes.now))) }
    ensures most { result < 2 ^ (8 * count) }
{
    let mut number = 0;
    for i in (0..count).rev() {
        number = number * 256 + u64::from(byte_from(bytes, at + 8 * i));
    }
    number
}

// The eight bits from a bit on as a byte.
fn byte_from(bytes: &[u8], at: usize) -> u8
    requires enough { at + 8 ≤ 8 * length bytes.now }
    ensures { result ≡ number_of (take 8 (drop at (bits_of bytes.now))) }
{
    let skipped = at % 8;
    let low = bytes[at / 8];
    if skipped == 0 {
        return low;
    }
    let both = u16::from(low) + 256 * u16::from(bytes[at / 8 + 1]);
    ((both >> skipped) % 256) as u8
}

// A number of so many bits in two's complement, by what they are without a sign.
fn with_sign(width: usize, number: u64) -> i64
    requires some { 0 < width }
    requires most { width ≤ 64 }
    requires within { number < 2 ^ width }
    ensures { result ≡ signed_of width number }
{
    let half = 1 << (width - 1);
    if number < half {
        number as i64
    } else {
        -1 - (half - 1 + half - number) as i64
    }
}

/// A number of so many bits in two's complement as they are without a sign.
pub fn without_sign(width: usize, number: i64) -> u64
    requires some { 0 < width }
    requires most { width ≤ 64 }
    ensures { result ≡ unsigned_of width number }
{
    if number >= 0 {
        return number as u64;
    }
    let half: u64 = 1 << (width - 1);
    (half - 1 + half).saturating_sub((-(number + 1)) as u64)
}
