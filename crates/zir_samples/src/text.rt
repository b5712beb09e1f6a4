//! Items of the text format.

ghost use Rattle.std.specs.Prelude.{◌≡◌, ◌<◌, ◌≤◌, ◌+◌, ◌-◌, ◌^◌, ◌++◌, ◌∷◌, [], ℕ, pos, neg_ℤ, false, Some, is_some, length, min, take};
ghost use Rattle.std.specs.List.{list_all};
ghost use Rattle.zir_cells.specs.Layout.{layout_of};
ghost use Rattle.zir_meaning.specs.Elements.{text_elements};
ghost use Rattle.zir_meaning.specs.Items.{width as width_of};
ghost use Rattle.zir_meaning.specs.Texts.{is_blank as blank_test, is_digit as digit_test, may_go_on as may_follow, trimmed as trimmed_of, written_number};
ghost use Rattle.zir_samples.specs.Finding.{Finds, IsStreamType};
ghost use Rattle.zir_samples.specs.Reading.{front_of, in_range, IsFirstComma, IsUncut, limit_of, magnitude_of, Reads, without_blanks_behind};
ghost use Rattle.zir_meaning.specs.Texts.{skip_blanks};
ghost use Rattle.zir_tree.specs.declared.format.Format.TheVariants.{Text};

use crate::bits::width;
use crate::finding::Found;
use zir_tree::types::{Base, Ty};

/// The most bytes that an item has with its white space and its comma.
const LONGEST: usize = 64;

/// What stands at the front of a text.
#[derive(Clone, Copy, Debug)]
pub enum Front {
    /// An item: its number, and how many bytes it has with its comma.
    Item(i64, usize),
    /// No whole item, and nothing malformed.
    Nothing,
    Malformed,
}

/// Reads the first element of a text, and puts its cells into `into`.
pub fn find_in_text(ty: &Ty, bytes: &[u8], ended: bool, into: &mut [i64]) -> Found
    requires stream { IsStreamType ty.now }
    requires cells { length into.old ≡ layout_of [] ty.now }
    ensures { Finds Text (text_elements ty.now bytes.now ended) result into.new }
{
    let mut at = 0;
    for cell in into.iter_mut() {
        match read_item(ty.base, &bytes[at..], ended) {
            Front::Item(number, size) => {
                *cell = number;
                at += size;
            }
            Front::Nothing => return if ended { Found::End } else { Found::More },
            Front::Malformed => return Found::Malformed,
        }
    }
    Found::Element(8 * at as u64)
}

/// Reads the item at the front of a text, which is all that the input has left where it has `ended`.
pub fn read_item(base: Base, bytes: &[u8], ended: bool) -> Front
    requires stream { 0 < width_of base }
    ensures { Reads base ended bytes.now result }
{
    match first_comma(&bytes[..bytes.len().min(LONGEST)]) {
        Some(comma) => item(number_in(base, &bytes[..comma]), comma + 1),
        None => behind_commas(base, bytes, ended),
    }
}

// What bytes are of which the first 64 hold no comma.
fn behind_commas(base: Base, bytes: &[u8], ended: bool) -> Front
    requires stream { 0 < width_of base }
    requires uncut { IsUncut (take 64 bytes.now) }
    ensures { Reads base ended bytes.now result }
{
    if bytes.len() > LONGEST {
        Front::Malformed
    } else {
        last_item(base, bytes, ended)
    }
}

// The place of the first comma.
fn first_comma(bytes: &[u8]) -> Option<usize>
    ensures { IsFirstComma bytes.now result }
{
    for (i, byte) in bytes.iter().enumerate() {
        if *byte == b',' {
            return Some(i);
        }
    }
    None
}

// What bytes without a comma are, of which there are at most 64.
fn last_item(base: Base, bytes: &[u8], ended: bool) -> Front
    requires stream { 0 < width_of base }
    requires short { length bytes.now ≤ 64 }
    requires uncut { IsUncut bytes.now }
    ensures { Reads base ended bytes.now result }
{
    if all_blank(bytes) {
        return Front::Nothing;
    }
    if ended {
        return item(number_in(base, bytes), bytes.len());
    }
    if may_go_on(base, bytes) {
        Front::Nothing
    } else {
        Front::Malformed
    }
}

// An item of so many bytes, where there is a number.
fn item(number: Option<i64>, size: usize) -> Front
    ensures { result ≡ front_of number size }
{
    match number {
        Some(number) => Front::Item(number, size),
        None => Front::Malformed,
    }
}

// Whether more bytes may make an item of these, which a digit does if any byte does.
fn may_go_on(base: Base, bytes: &[u8]) -> bool
    requires stream { 0 < width_of base }
    requires short { length bytes.now ≤ 64 }
    requires some { list_all blank_test bytes.now ≡ false }
    ensures { result ≡ may_follow base bytes.now }
{
    if number_in(base, bytes).is_some() {
        return true;
    }
    bytes.len() < LONGEST && digit_mends(base, bytes)
}

// Whether bytes with a digit behind them are a number.
fn digit_mends(base: Base, bytes: &[u8]) -> bool
    requires stream { 0 < width_of base }
    requires short { length bytes.now < 64 }
    ensures { result ≡ is_some (in_range base (written_number (trimmed_of (bytes.now ++ 48 ∷ [])))) }
{
    let mut buffer = [0; LONGEST];
    let longer = &mut buffer[..bytes.len() + 1];
    copy_with_digit(bytes, longer);
    number_in(base, longer).is_some()
}

// Copies bytes and puts a digit behind them.
fn copy_with_digit(bytes: &[u8], into: &mut [u8])
    requires size { length into.old ≡ length bytes.now + 1 }
    ensures { into.new ≡ bytes.now ++ 48 ∷ [] }
{
    for (i, byte) in bytes.iter().enumerate() {
        into[i] = *byte;
    }
    into[bytes.len()] = b'0';
}

fn all_blank(bytes: &[u8]) -> bool
    ensures { result ≡ list_all blank_test bytes.now }
{
    bytes.iter().all(|b| is_blank(*b))
}

// The number between the white space of these bytes, where its type has it.
fn number_in(base: Base, bytes: &[u8]) -> Option<i64>
    requires stream { 0 < width_of base }
    ensures { result ≡ in_range base (written_number (trimmed_of bytes.now)) }
{
    written(base, trimmed(bytes))
}

// The number that bytes write, where its type has it.
fn written(base: Base, bytes: &[u8]) -> Option<i64>
    requires stream { 0 < width_of base }
    ensures { result ≡ in_range base (written_number bytes.now) }
{
    let (first, digits) = bytes.split_first()?;
    if *first == b'-' {
        negative(base, magnitude(digits)?)
    } else {
        positive(base, magnitude(bytes)?)
    }
}

// A number from 0 on, where its type has it; the number may be greater where it is the greatest of 64 bits.
fn positive(base: Base, number: u64) -> Option<i64>
    requires stream { 0 < width_of base }
    ensures { (n : ℕ) → number ≡ min n (2 ^ 64 - 1) → result ≡ in_range base (Some (pos n)) }
{
    if number < limit(base) {
        Some(number as i64)
    } else {
        None
    }
}

// The opposite of a number, where its type has it; the number may be greater where it is the greatest of 64 bits.
fn negative(base: Base, number: u64) -> Option<i64>
    requires stream { 0 < width_of base }
    ensures { (n : ℕ) → number ≡ min n (2 ^ 64 - 1) → result ≡ in_range base (Some (neg_ℤ (pos n))) }
{
    if number == 0 {
        Some(0)
    } else if number <= limit(base) && base != Base::Bit {
        Some(-1 - (number - 1) as i64)
    } else {
        None
    }
}

// How many numbers from 0 on a type has.
fn limit(base: Base) -> u64
    requires stream { 0 < width_of base }
    ensures limit { result ≡ limit_of base }
    ensures most { result ≤ 2 ^ 63 }
{
    match base {
        Base::Bit => 2,
        _ => 1 << (width(base) - 1),
    }
}

// The number that decimal digits write, or the greatest of 64 bits where that is less.
fn magnitude(digits: &[u8]) -> Option<u64>
    ensures { result ≡ magnitude_of digits.now }
{
    if digits.is_empty() || !all_digits(digits) {
        return None;
    }
    let mut number: u64 = 0;
    for digit in digits {
        number = number
            .saturating_mul(10)
            .saturating_add(u64::from(*digit - b'0'));
    }
    Some(number)
}

fn all_digits(bytes: &[u8]) -> bool
    ensures { result ≡ list_all digit_test bytes.now }
{
    bytes.iter().all(|b| is_digit(*b))
}

// Bytes without the white space on both sides of them.
fn trimmed(bytes: &[u8]) -> &[u8]
    ensures { result.now ≡ trimmed_of bytes.now }
{
    without_back(without_front(bytes))
}

// Bytes without the white space in front of them.
fn without_front(bytes: &[u8]) -> &[u8]
    ensures { result.now ≡ skip_blanks bytes.now }
{
    let mut rest = bytes;
    while let Some((first, behind)) = rest.split_first() {
        if !is_blank(*first) {
            break;
        }
        rest = behind;
    }
    rest
}

// Bytes without the white space behind them.
fn without_back(bytes: &[u8]) -> &[u8]
    ensures { result.now ≡ without_blanks_behind bytes.now }
{
    let mut rest = bytes;
    while let Some((last, before)) = rest.split_last() {
        if !is_blank(*last) {
            break;
        }
        rest = before;
    }
    rest
}

fn is_blank(byte: u8) -> bool
    ensures { result ≡ blank_test byte }
{
    byte == b' ' || byte == b'\t' || byte == b'\n' || byte == b'\r'
}

fn is_digit(byte: u8) -> bool
    ensures { result ≡ digit_test byte }
{
    b'0' <= byte && byte <= b'9'
}
