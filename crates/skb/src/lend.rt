//! A head's bytes, lent for writing.
ghost use Rattle.std.specs.Prelude.{◌≡◌, ◌≤◌, true, false, MatchOption, slice_range};
ghost use Rattle.std.specs.Borrow.{sem};
ghost use Rattle.frags.specs.Holders.{block};
ghost use Rattle.frags.specs.declared.holder.Holder.{Holder};
ghost use Rattle.skb.specs.SkbState.{is_sole};
ghost use Rattle.skb.specs.Lending.{lends_sole_if, lends_sole, lends_range};

use frags::Holder;
use raw_block::Sole;

fn as_sole(head: &mut Holder) -> Option<&mut Sole>
    ensures* writes_back { sem 𝓛 (lends_sole_if head.entry result) }
    ensures value { MatchOption result (is_sole head.old ≡ false) (λ r. head.old ≡ Holder.Sole r.now) }
{
    match head {
        Holder::Sole(sole) => Some(sole),
        Holder::Part(_) => None,
    }
}

fn sole_of(head: &mut Holder) -> &mut Sole
    requires sole { is_sole head.old ≡ true }
    ensures* writes_back { sem 𝓛 (lends_sole head.entry result) }
    ensures value { head.old ≡ Holder.Sole result.now }
{
    let r = as_sole(head);
    r.unwrap()
}

// The bytes `from..to` of a head that is a Sole.
pub(crate) fn range_of(head: &mut Holder, from: usize, to: usize) -> &mut [u8]
    requires sole { (is_sole head.old ≡ true) × (from ≤ to) × (to ≤ 2048) }
    ensures* writes_back { sem 𝓛 (lends_range head.entry from result) }
    ensures value { result.now ≡ slice_range (block head.old) from to }
{
    let sole = sole_of(head);
    sole.range_mut(from, to)
}
