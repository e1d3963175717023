//! Data words, as people write them.
ghost use Rattle.std.specs.Prelude.{◌≡◌, ◌<◌, ◌^◌, ℕ, Some, None, IfSome, MatchOption, decimal};
ghost use Rattle.g1_text.specs.Forms.{Negates, HasHexDigits, HasPoint, Quotes, StandsFor, IsDataWord, hash_of};

use crate::words::whole;

/// The word of 64 bits that a word stands for: digits, a minus and digits, `0x` and hexadecimal digits, a text in quotes, by
/// its hash, or a number with a point, by the bits of a double.
pub fn data_word(text: &str) -> Option<u64>
    ensures form { IfSome result (λ n. StandsFor n text.now) }
    ensures all { result ≡ None → IsDataWord text.now → ⊥ }
    ensures full { (n : ℕ) → n < 2 ^ 64 → text.now ≡ decimal n → result ≡ Some n }
{
    if let Some(number) = whole(text) {
        return Some(number);
    }
    if let Some(number) = negative(text) {
        return Some(number);
    }
    if let Some(number) = hexadecimal(text) {
        return Some(number);
    }
    match quoted(text) {
        Some(hash) => Some(hash),
        None => with_point(text),
    }
}

// A number below 0, or -0, as two's complement.
fn negative(text: &str) -> Option<u64>
    ensures { MatchOption result ((n : ℕ) → Negates n text.now → ⊥) (λ n. Negates n text.now) }
{
    let number = whole(text.strip_prefix('-')?)?;
    if number > 1 << 63 {
        return None;
    }
    if number == 0 {
        return Some(0);
    }
    Some(u64::MAX - number + 1)
}

// The digits behind `0x`. `from_str_radix` takes a plus in front of them, too.
fn hexadecimal(text: &str) -> Option<u64>
    ensures { MatchOption result ((n : ℕ) → HasHexDigits n text.now → ⊥) (λ n. HasHexDigits n text.now) }
{
    let digits = text.strip_prefix('0')?.strip_prefix('x')?;
    if digits.starts_with('+') {
        return None;
    }
    u64::from_str_radix(digits, 16).ok()
}

// The bits of the number.
fn with_point(text: &str) -> Option<u64>
    ensures { MatchOption result ((n : ℕ) → HasPoint n text.now → ⊥) (λ n. HasPoint n text.now) }
{
    text.split_once('.')?;
    let number = text.parse::<f64>().ok()?;
    if number.is_nan() {
        return None;
    }
    Some(number.to_bits())
}

// The hash of what is between the quotes.
fn quoted(text: &str) -> Option<u64>
    ensures { MatchOption result ((n : ℕ) → Quotes n text.now → ⊥) (λ n. Quotes n text.now) }
{
    let inner = text.strip_prefix('"')?.strip_suffix('"')?;
    Some(hash(inner.as_bytes()))
}

// FNV-1a of 64 bits: ten lines in every language.
fn hash(bytes: &[u8]) -> u64
    ensures { result ≡ hash_of bytes.now }
{
    let mut hash = 0xcbf2_9ce4_8422_2325u64;
    for at in 0..bytes.len() {
        hash = (hash ^ u64::from(bytes[at])).wrapping_mul(0x0100_0000_01b3);
    }
    hash
}
