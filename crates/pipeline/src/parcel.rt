//! What goes to the side that works.
ghost use Rattle.std.specs.Prelude.{◌≡◌};

use block_pool::Pool;
use crossing::PoolName;
use rounds::RoundRead;
use rtrb::Protocol;
use std::marker::PhantomData;

/// A round that was read, its number, and an emptied list, whose memory goes back to who gives lists. One that is
/// dropped frees its blocks.
pub(crate) struct Parcel {
    pub(crate) number: u64,
    pub(crate) read: RoundRead,
    pub(crate) spent: Option<Pool>,
}

impl Parcel {
    /// What was sent.
    pub(crate) fn open(self) -> (u64, RoundRead, Option<Pool>)
        ensures same { (result.0 ≡ self.number) × (result.1 ≡ self.read) }
    {
        let Parcel {
            number,
            read,
            spent,
        } = self;
        (number, read, spent)
    }
}

impl Drop for Parcel {
    fn drop(self) {
        let Parcel {
            number: _,
            read: RoundRead { round, end: _ },
            spent: _spent,
        } = self;
        round.discard();
    }
}

/// Rounds come in turn, and each fits the blocks.
pub(crate) struct RoundsInTurn<N: PoolName> {
    of: PhantomData<N>,
}

impl<N: PoolName> Protocol<Parcel> for RoundsInTurn<N> {
    ghost use Rattle.pipeline.specs.Parcels.{IsFit};

    ghost allows = { λ before x. IsFit N.blocks before x };
}
