//! The sum of bytes that come in pieces.

ghost use Rattle.std.specs.Prelude.{◌≡◌, ℕ, ◌+◌, ◌*◌, ◌/◌, ◌%◌, ◌^◌, ◌<◌, ◌≤◌, List, [], ◌∷◌, ◌++◌, length};
ghost use Rattle.inet_sum.specs.Stands.{FoldAndLength, StandsFor};
ghost use Rattle.inet_sum.specs.Sum.{folded, fold_of as fold_of_bytes, checksum_of, udp_checksum_of};
ghost use Rattle.inet_sum.specs.Sum.{joined_fold as joined_fold_of};

use crate::{fold_number, unfolded};
use std::marker::Model;

/// The sum of some bytes: their fold, and how many they are. It stands for every list of bytes that has both.
#[derive(Clone, Copy, Default)]
pub struct Partial {
    /// Of the bytes as big-endian words of 16 bits, the last one filled up with 0; not complemented.
    fold: u16,
    len: u32,
}

impl Model for Partial {
    ghost Value = { FoldAndLength };

    ghost view = { λ p. record { fold = p.fold; len = p.len } };

    ghost inverse = { λ v. record { fold = v.fold; len = v.len } };
}

impl Partial {
    /// The sum of no bytes.
    pub fn new() -> Partial
        ensures sum { StandsFor result [] }
        ensures len { result.len ≡ 0 }
    {
        Partial { fold: 0, len: 0 }
    }

    /// Adds these bytes behind the others.
    #[inline(always)]
    pub fn add(&mut self, bytes: &[u8])
        requires few { self.old.len + length bytes.now < 2 ^ 32 }
        ensures sum { (front : List ℕ) → StandsFor self.old front → StandsFor self.new (front ++ bytes.now) }
        ensures len { self.new.len ≡ self.old.len + length bytes.now }
    {
        *self = self.with(bytes);
    }

    /// The sum of these bytes behind the others. An even number of others costs one fold alone.
    #[inline(always)]
    fn with(self, bytes: &[u8]) -> Partial
        requires few { self.len + length bytes.now < 2 ^ 32 }
        ensures sum { (front : List ℕ) → StandsFor self front → StandsFor result (front ++ bytes.now) }
        ensures len { result.len ≡ self.len + length bytes.now }
    {
        Partial {
            fold: joined_number(self.fold, self.len % 2 == 1, unfolded(bytes)),
            len: self.len + bytes.len() as u32,
        }
    }

    /// Adds the two bytes of a number, high byte first; the first of them may be above 255.
    pub fn add_number(&mut self, n: u32)
        requires few { self.old.len + 2 < 2 ^ 32 }
        ensures sum { (front : List ℕ) → StandsFor self.old front
            → StandsFor self.new (front ++ (n / 256 ∷ n % 256 ∷ [])) }
        ensures len { self.new.len ≡ self.old.len + 2 }
    {
        let other = Partial {
            fold: fold_number(u64::from(n)),
            len: 2,
        };
        *self = self.joined(other);
    }

    /// The sum of these bytes followed by the other's.
    pub fn joined(self, other: Partial) -> Partial
        requires few { self.len + other.len < 2 ^ 32 }
        ensures sum { (front back : List ℕ) → StandsFor self front → StandsFor other back
            → StandsFor result (front ++ back) }
        ensures len { result.len ≡ self.len + other.len }
    {
        Partial {
            fold: joined_fold(self.fold, self.len % 2 == 1, other.fold),
            len: self.len + other.len,
        }
    }

    /// How many bytes there are.
    pub fn len(&self) -> u32
        ensures len { result ≡ self.now.len }
    {
        self.len
    }

    /// The fold of the bytes.
    pub fn fold(&self) -> u16
        ensures is { result ≡ self.now.fold }
        ensures fold { (bytes : List ℕ) → StandsFor self.now bytes → result ≡ fold_of_bytes bytes }
    {
        self.fold
    }

    /// The checksum of the bytes.
    pub fn checksum(&self) -> u16
        ensures checksum { (bytes : List ℕ) → StandsFor self.now bytes → result ≡ checksum_of bytes }
    {
        65535 - self.fold
    }
}

/// The fold of two pieces, from their folds; `is_odd` says whether the first has an odd number of bytes.
fn joined_fold(first: u16, is_odd: bool, second: u16) -> u16
    ensures fold { result ≡ joined_fold_of is_odd first second }
{
    let weight = if is_odd { 256 } else { 1 };
    fold_number(u64::from(first) + weight * u64::from(second))
}

/// The same where the second piece's fold isn't taken yet: of an even first piece one fold is enough.
#[inline(always)]
fn joined_number(first: u16, is_odd: bool, second: u64) -> u16
    requires small { second < 2 ^ 63 }
    ensures fold { result ≡ joined_fold_of is_odd first (folded second) }
{
    if is_odd {
        return joined_fold(first, true, fold_number(second));
    }
    fold_number(u64::from(first) + second)
}
