// Sets of numbers as words of 64 bits.

ghost use Rattle.std.specs.Prelude.{◌≡◌, ℕ, ◌∷◌, ◌++◌, ◌≤◌, ◌<◌, ◌^◌, ◌+◌, ◌*◌, ◌/◌, ◌%◌, length, vec_len, OnOk, IfOk, false, true, bit_and, bit_or, nat_eq, ◌||◌, ◌&&◌, not, MatchOption};
ghost use Rattle.zir_sharing.specs.Members.{word_at as word_of, holds, members};

use std::alloc::{AllocError, Global};

/// The word at a place; there are only noughts behind the last.
pub fn word_at(words: &[u64], at: usize) -> u64
    ensures { result ≡ word_of words.now at }
{
    if at < words.len() { words[at] } else { 0 }
}

/// Noughts behind the last word, up to so many words.
pub fn widen(words: &mut Vec<u64>, count: usize) -> Result<(), AllocError>
    ensures same { (k : ℕ) → word_of words.new.items k ≡ word_of words.old.items k }
    ensures wide { OnOk result (count ≤ length words.new.items) }
    ensures small { (most : ℕ) → length words.old.items ≤ most → count ≤ most →
        length words.new.items ≤ most }
{
    if words.len() < count {
        words.resize(count, 0)?;
    }
    Ok(())
}

/// Sets the bit of a number.
pub fn put(words: &mut [u64], n: u32)
    requires { n / 64 < length words.old }
    ensures { (q : ℕ) → holds words.new q ≡ (nat_eq q n || holds words.old q) }
{
    let at = (n / 64) as usize;
    words[at] |= 1 << (n % 64);
}

/// Sets the bits that are set in others.
pub fn join(words: &mut [u64], others: &[u64])
    requires { length others.now ≤ length words.old }
    ensures { (k : ℕ) → word_of words.new k ≡ bit_or (word_of words.old k) (word_of others.now k) }
{
    for i in 0..others.len() {
        words[i] |= others[i];
    }
}

/// Keeps the bits that are set in others too.
pub fn keep(words: &mut [u64], others: &[u64])
    ensures { (k : ℕ) → word_of words.new k ≡ bit_and (word_of words.old k) (word_of others.now k) }
{
    for i in 0..words.len() {
        words[i] &= word_at(others, i);
    }
}

/// Keeps the bits that are not set in others.
pub fn remove(words: &mut [u64], others: &[u64])
    ensures { (q : ℕ) → holds words.new q ≡ (not (holds others.now q) && holds words.old q) }
{
    for i in 0..words.len() {
        words[i] &= !word_at(others, i);
    }
}

/// Whether the bit of a number is set.
fn has(words: &[u64], n: usize) -> bool
    ensures { result ≡ holds words.now n }
{
    (word_at(words, n / 64) >> (n % 64)) & 1 == 1
}

/// The least number whose bit is set.
pub fn first(words: &[u64]) -> Option<u32>
    requires { length words.now ≤ 2 ^ 26 }
    ensures { MatchOption result ((q : ℕ) → holds words.now q ≡ false)
        (λ n. (holds words.now n ≡ true) × ((q : ℕ) → q < n → holds words.now q ≡ false)) }
{
    for (i, word) in words.iter().enumerate() {
        if *word != 0 {
            return Some(i as u32 * 64 + word.trailing_zeros());
        }
    }
    None
}

/// The numbers whose bits are set.
pub fn list(alloc: Global, words: &[u64]) -> Result<Vec<u32>, AllocError>
    requires { length words.now ≤ 2 ^ 26 }
    ensures { IfOk result (λ found. found.items ≡ members words.now) }
{
    let mut found = Vec::new(alloc);
    for n in 0..64 * words.len() {
        if has(words, n) {
            found.push(n as u32)?;
        }
    }
    Ok(found)
}
