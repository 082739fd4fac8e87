//! The sums of the segments of a payload, taken as its bytes come in pieces.

ghost use Rattle.std.specs.Prelude.{◌≡◌, ◌+◌, ◌*◌, ◌<◌, ◌≤◌, ◌^◌, ◌++◌, [], ℕ, List, length, take, drop, IfSome, true};
ghost use Rattle.inet_sum.specs.Stands.{StandsFor};
ghost use Rattle.gso.specs.Sums.{AreSumsOf, IsRoom};

use arrayvec::ArrayVec;
use inet_sum::Partial;

/// How many segments' sums are kept: all of a frame of 64 KiB where a segment has 1,024 bytes or more.
const KEPT: usize = 64;

/// The sums of the first segments, and one of all bytes behind these.
#[derive(Drop)]
pub struct Sums {
    /// One for each whole segment from the first, at most 64.
    pub(crate) parts: ArrayVec<Partial, 64>,
    /// Of all bytes behind these: of a segment that isn't whole yet, or of all further ones.
    pub(crate) rest: Partial,
}

impl Sums {
    /// Of no bytes.
    pub(crate) fn new() -> Sums
        ensures none { (m : ℕ) → AreSumsOf m result [] }
        ensures room { (m : ℕ) → 1 ≤ m → IsRoom m result }
        ensures len { result.rest.len ≡ 0 }
    {
        Sums {
            parts: ArrayVec::new(),
            rest: Partial::new(),
        }
    }

    /// How many bytes more go to the open sum.
    fn room(&self, m: u32) -> usize
        requires room { IsRoom m self.now }
        ensures some { 1 ≤ result }
        ensures fits { length self.now.parts.items < 64 → self.now.rest.len + result ≤ m }
    {
        if self.parts.len() == KEPT {
            usize::MAX
        } else {
            (m - self.rest.len()) as usize
        }
    }

    /// Bytes for which there is room follow.
    fn take_in(&mut self, bytes: &[u8], m: u32)
        requires room { IsRoom m self.old }
        requires fits { length self.old.parts.items < 64 → self.old.rest.len + length bytes.now ≤ m }
        requires few { self.old.rest.len + length bytes.now < 2 ^ 32 }
        ensures sums { (f : List ℕ) → AreSumsOf m self.old f → AreSumsOf m self.new (f ++ bytes.now) }
        ensures room { IsRoom m self.new }
        ensures len { self.new.rest.len ≤ self.old.rest.len + length bytes.now }
    {
        self.rest.add(bytes);
        if self.parts.len() < KEPT && self.rest.len() == m {
            self.parts.push(self.rest);
            self.rest = Partial::new();
        }
    }

    /// Bytes follow, of segments of `m` bytes.
    pub(crate) fn add(&mut self, bytes: &[u8], m: u32)
        requires room { IsRoom m self.old }
        requires few { self.old.rest.len + length bytes.now < 2 ^ 32 }
        ensures sums { (f : List ℕ) → AreSumsOf m self.old f → AreSumsOf m self.new (f ++ bytes.now) }
        ensures room { IsRoom m self.new }
        ensures len { self.new.rest.len ≤ self.old.rest.len + length bytes.now }
    {
        let mut at = 0usize;
        while at < bytes.len() {
            let n = self.room(m).min(bytes.len() - at);
            self.take_in(&bytes[at..at + n], m);
            at += n;
        }
    }

    /// The sum of all bytes, with nothing read again.
    pub(crate) fn whole(&self, m: u32) -> Partial
        requires of { (f : List ℕ) × (AreSumsOf m self.now f × (length f < 2 ^ 32)) }
        ensures whole { (f : List ℕ) → AreSumsOf m self.now f → StandsFor result f }
    {
        let mut all = Partial::new();
        for part in self.parts.as_slice() {
            all = all.joined(*part);
        }
        all.joined(self.rest)
    }

    /// The sum of segment `i`, from 0, where it is known. The last one's is that of all that follows.
    pub fn part(&self, m: u32, i: u32, is_last: bool) -> Option<Partial>
        ensures part { (f : List ℕ) → AreSumsOf m self.now f → (is_last ≡ true → length f ≤ (i + 1) * m)
            → IfSome result (λ s. StandsFor s (take m (drop (i * m) f))) }
    {
        let at = i as usize;
        let parts = self.parts.as_slice();
        if at < parts.len() {
            Some(parts[at])
        } else if at == parts.len() && is_last {
            Some(self.rest)
        } else {
            None
        }
    }
}
