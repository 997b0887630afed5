// LEB128 numbers: util.rs, read_uleb128 and read_sleb128, for every number of 64 bits and any padding.
ghost use Rattle.std.specs.Prelude.{◌≡◌, ◌^◌, ◌<◌, length, nat_lt, position};
ghost use Rattle.reads.specs.Reference.{before};
ghost use Rattle.reads.specs.Leb128.{digit_count, digit, magnitude, within64, by_sign, uleb_of, sleb_of, uleb128, sleb128};
ghost use Rattle.reads.specs.Answer.{outcome};

use crate::answer::{Missing, Reason};

// A number, and how many bytes it took.
#[derive(Clone, Copy)]
pub struct Leb<T> {
    pub value: T,
    pub consumed: usize,
}

// Where the last digit stands: the first byte without bit 7.
fn last_digit(bytes: &[u8]) -> Option<usize>
    ensures { result ≡ position (λ b. nat_lt b 128) (before bytes) }
{
    bytes.iter().position(|b| *b < 0x80)
}

// How many bytes the digits are.
#[tactic(auto, using(crate::proofs::LebLaws::counted_last, crate::proofs::LebLaws::counted_none))]
fn digit_count(bytes: &[u8]) -> Result<u64, Missing>
    ensures { outcome result ≡ digit_count (before bytes) }
{
    match last_digit(bytes) {
        Some(last) => Ok((last + 1) as u64),
        None => Err(Missing::Absent(Reason::Unreadable)),
    }
}

// The seven bits of a digit, complemented where the number is negative.
#[tactic(auto, unfolding(crate::specs::Leb128::digit))]
fn digit(b: u8, negative: bool) -> u64
    ensures { result ≡ digit negative b }
{
    let d = (b & 0x7F) as u64;
    if negative {
        return 127 - d;
    }
    d
}

// The number of the digits, or of their complements, from the last to the first: from 2^57 on no further digit fits.
#[tactic(auto, using(crate::proofs::LebLaws::digit_below, crate::proofs::LebLaws::behind_start, crate::proofs::LebLaws::behind_more))]
fn magnitude(digits: &[u8], negative: bool) -> Result<u64, Missing>
    ensures { outcome result ≡ within64 (magnitude negative (before digits)) }
{
    let mut n = 0;
    for b in digits.iter().rev() {
        if 0x0200_0000_0000_0000 <= n {
            return Err(Missing::Absent(Reason::Malformed));
        }
        n = n * 128 + digit(*b, negative);
    }
    Ok(n)
}

// m, or -1 - m.
#[tactic(auto, unfolding(crate::specs::Leb128::by_sign))]
fn by_sign(negative: bool, m: u64) -> i64
    requires { m < 2 ^ 63 }
    ensures { result ≡ by_sign negative m }
{
    if negative {
        return -1 - (m as i64);
    }
    m as i64
}

// The unsigned number of the digits.
#[tactic(auto, using(crate::proofs::Outcomes::outcomes), unfolding(crate::specs::Leb128::uleb_of, crate::specs::Leb128::magnitude))]
fn uleb_of(digits: &[u8]) -> Result<Leb<u64>, Missing>
    ensures { outcome result ≡ uleb_of (before digits) }
{
    let value = magnitude(digits, false)?;
    Ok(Leb {
        value,
        consumed: digits.len(),
    })
}

// The signed number of the digits, by its sign and magnitude: bit 6 of the last digit is the sign.
fn sleb_of(digits: &[u8]) -> Result<Leb<i64>, Missing>
    requires { 0 < length digits.now }
    ensures { outcome result ≡ sleb_of (before digits) }
{
    let consumed = digits.len();
    let last = digits[consumed - 1];
    let negative = last / 64 % 2 == 1;
    let m = magnitude(digits, negative)?;
    if 0x8000_0000_0000_0000 <= m {
        return Err(Missing::Absent(Reason::Malformed));
    }
    let value = by_sign(negative, m);
    Ok(Leb { value, consumed })
}

// The unsigned number that bytes begin with. Not one with read_sleb128: their numbers are of two types, and what both do is two lines.
#[tactic(auto, using(crate::proofs::Outcomes::outcomes), unfolding(crate::specs::Leb128::uleb128))]
pub fn read_uleb128(bytes: &[u8]) -> Result<Leb<u64>, Missing>
    ensures { outcome result ≡ uleb128 (before bytes) }
{
    let k = digit_count(bytes)?;
    let end = k as usize;
    uleb_of(&bytes[..end])
}

// The signed number that bytes begin with.
#[tactic(auto, using(crate::proofs::Outcomes::outcomes), unfolding(crate::specs::Leb128::sleb128))]
pub fn read_sleb128(bytes: &[u8]) -> Result<Leb<i64>, Missing>
    ensures { outcome result ≡ sleb128 (before bytes) }
{
    let k = digit_count(bytes)?;
    let end = k as usize;
    sleb_of(&bytes[..end])
}
