//! The sum of a segment's payload, in the pieces that were cut off for it.

ghost use Rattle.std.specs.Prelude.{◌≡◌, ◌<◌, length};
ghost use Rattle.inet_sum.specs.Stands.{StandsFor};
ghost use Rattle.frags.specs.PieceList.{bytes_of, size_of};
ghost use Rattle.gso_cutter.specs.Sums.{IsSummedSegment};

use frags::Pieces;
use gso::Sums;
use inet_sum::Partial;
use segment_rule::Segmentation;

/// The sum of segment `i`, from 0, whose bytes are `own`: where the plan doesn't know it they are read.
pub(crate) fn of_segment(sums: &Sums, cut: &Segmentation, i: u32, own: &Pieces) -> Partial
    requires there { i < cut.now.n }
    requires of { IsSummedSegment sums.now cut.now i (bytes_of own.now) }
    ensures sum { StandsFor result (bytes_of own.now) }
    ensures len { result.len ≡ length (bytes_of own.now) }
{
    let n = cut.n;
    match sums.part(cut.m, i, i + 1 == n) {
        Some(sum) => sum,
        None => sum_of(own),
    }
}

/// The sum of all bytes of pieces: each is read once, where it lies.
fn sum_of(pieces: &Pieces) -> Partial
    ensures sum { StandsFor result (bytes_of pieces.now) }
    ensures size { length (bytes_of pieces.now) ≡ size_of pieces.now }
    ensures len { result.len ≡ length (bytes_of pieces.now) }
{
    let _ = pieces.len();
    let mut sum = Partial::new();
    let n = pieces.count();
    for i in 0..n {
        sum.add(pieces.slice(i));
    }
    sum
}
