//! Where lists arrive at the side that reads, and their blocks go home.
ghost use Rattle.std.specs.Prelude.{◌≡◌, ◌≤◌, is_some};
ghost use Rattle.std.specs.Arc.{arc_value};
ghost use Rattle.rtrb.specs.Ring.{sent, SameProducer};

use crate::handshake::Ended;
use crate::lent::Away;
use crate::post::Post;
use crate::ring::has_place;
use block_pool::Pool;
use block_supply::Taker;
use rtrb::{Producer, Protocol};
use std::alloc::{AllocError, Global};

/// As many rounds are on their way at once, each from when it is read until its blocks are given.
pub const ROUNDS: usize = 3;

/// The places of the ring. While none is free no round is read, so with the one that is worked they are all.
pub const IN_RING: usize = ROUNDS - 1;

/// The end where lists come back, and what is away with rounds. Where a round is paused for want of blocks they are
/// waited for, whatever comes; `stopped` says that the other side takes no more rounds.
#[derive(Drop)]
pub struct Arrivals<W: Post + Drop> {
    /// Where this side waits, and from where it wakes the other.
    pub(crate) post: W,
    /// How many blocks there are in all. A list for those of a round has as many places.
    pub(crate) blocks: u32,
    // Emptied lists, whose memory goes away with rounds again.
    pub(crate) spent: Vec<Pool>,
    /// This side's end of the pool of lists.
    pub(crate) taker: Taker,
    /// The blocks that are out, by this side's own count.
    pub(crate) away: Away,
    /// Set as a round is paused for want of blocks, until it goes away.
    pub(crate) paused: bool,
    /// There once the other side has said so, and never taken back.
    pub(crate) stopped: Option<Ended>,
    /// The pool of lists is the one that contracts of the whole run name.
    pub ghost pooled: { arc_value taker.lists ≡ W.lists },
}

/// Empty lists for so many blocks, for all rounds that may be away but the first one and the one that is worked.
pub fn new_spent(alloc: Global, blocks: u32) -> Result<Vec<Pool>, AllocError>
    requires few { blocks ≤ 65536 }
{
    let mut spent = Vec::with_capacity(alloc, ROUNDS)?;
    for _ in 1..ROUNDS {
        spent.push(Pool::empty(alloc, blocks)?)?;
    }
    Ok(spent)
}

impl<W: Post + Drop> Arrivals<W> {
    /// A round is away already.
    pub fn new(post: W, blocks: u32, away: Away, spent: Vec<Pool>, taker: Taker) -> Arrivals<W>
        requires pooled { arc_value taker.lists ≡ W.lists }
        ensures same { result.taker ≡ taker }
    {
        Arrivals {
            post,
            blocks,
            spent,
            taker,
            away,
            paused: false,
            stopped: None,
        }
    }

    /// What is left here of lists.
    pub fn close(self) -> Taker
        ensures same { result ≡ self.taker }
    {
        let Arrivals {
            post: _post,
            blocks: _,
            spent: _spent,
            taker,
            away: _,
            paused: _,
            stopped: _,
        } = self;
        taker
    }

    /// Whether reading may begin.
    pub fn begin(&self) -> bool {
        self.post.begin()
    }

    /// Wakes the other side.
    pub fn wake(&self) {
        self.post.wake();
    }

    /// Whether the other side takes no more rounds: only where it has said so.
    pub fn has_stopped(&self) -> bool
        ensures stopped { result ≡ is_some self.now.stopped }
    {
        self.stopped.is_some()
    }

    // Whether the other side has stopped: what it gave before that is found by the next look for a list.
    pub(crate) fn ask_end(&mut self)
        ensures same { self.new.taker ≡ self.old.taker }
    {
        if self.stopped.is_none() {
            self.stopped = self.post.has_ended();
        }
    }

    /// Waits until there is a place for a round, or the other side has stopped.
    pub fn await_place<T, P: Protocol<T>>(&mut self, ring: &mut Producer<T, Global, P>)
        ensures ring { SameProducer ring.old ring.new }
        ensures sent { sent ring.new ≡ sent ring.old }
        ensures same { self.new.taker ≡ self.old.taker }
    {
        for _ in 0..u64::MAX {
            self.ask_end();
            if self.has_stopped() || has_place(ring) {
                return;
            }
            self.post.sleep();
        }
        self.post.stall();
        unreachable!()
    }

    /// The memory of a list, for the blocks of a round that goes away.
    pub fn pick(&mut self) -> Option<Pool>
        ensures same { self.new.taker ≡ self.old.taker }
    {
        self.spent.pop()
    }

    /// A round goes away, of so many blocks and spares.
    pub fn lend(&mut self, blocks: u32, spares: u32)
        ensures same { self.new.taker ≡ self.old.taker }
    {
        self.away.lend(blocks, spares);
        self.paused = false;
    }
}
