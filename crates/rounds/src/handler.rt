//! What is done with the rounds of a capture.
ghost use Rattle.std.specs.Prelude.{◌≡◌, ◌+◌, ◌≤◌, ◌^◌, ℕ, Bool, true, Option, None, length};
ghost use Rattle.offload_model.specs.Written.{Options};
ghost use Rattle.rounds.specs.declared.round_stages.RoundRead.{RoundRead as ReadState};
ghost use Rattle.rounds.specs.Benches.{options_at, BringsBeside, GivesSpares, IsLent, IsAsRead, Lends, MayBring};
ghost use Rattle.rounds.specs.Weights.{weights_of};

use crate::bench::Bench;
use crate::round_stages::{RoundEnd, RoundRead};
use block_pool::{Giver, Pool};
use lanes::Works;

/// What is done with each round of a capture, in turn, until that ends, as an `E` says. `T` is what comes of it.
pub trait RoundHandler<T, E> {
    /// What holds of it behind so many packets.
    ghost ready: { Options → Bool → ℕ → T → Type 0 };

    /// What a round did that was read behind so many others, from what had come of them to what comes of it: `None`
    /// where more may follow.
    ghost did: { Self → Options → T → T → ReadState → ℕ → Option E → Type 0 };

    /// The end for want of memory.
    ghost stopped: { E };

    /// Works a round that was read, behind `number` others, does with it what is to be done, and brings it home, to
    /// wherever that is, but spares that go to others by the giver: by who gives (`Works::gives`) all of them, where
    /// more rounds may follow. One that exceeds the blocks or that there was no memory for is given up.
    fn handle<W: Works>(
        &self,
        works: &mut W,
        bench: &mut Bench,
        home: &mut Pool,
        giver: &mut Option<Giver>,
        read: RoundRead,
        number: u64,
        into: &mut T,
    ) -> Option<E>
        requires may { MayBring read.round.blocks bench.old home.old }
        requires lent { IsLent giver.old }
        requires read { IsAsRead read.round }
        requires ready { (n : ℕ) × (n ≤ 2 ^ 32) × ready (options_at bench.old) bench.old.keep n into.old }
        ensures did { did self.now (options_at bench.old) into.old into.new read number result }
        ensures full { result ≡ None → read.end ≡ RoundEnd.Full }
        ensures ready { (n : ℕ) → ready (options_at bench.old) bench.old.keep n into.old
            → ready (options_at bench.old) bench.old.keep (n + length read.round.packets) into.new }
        ensures brings { BringsBeside read.round.blocks (weights_of read.round) bench.old bench.new home.old home.new
            giver.old giver.new }
        ensures gave { Lends giver.old giver.new }
        ensures gives_spares { W.gives ≡ true → result ≡ None
            → GivesSpares (length read.round.spares) giver.old giver.new };

    /// Ends for want of memory.
    fn stop(&self) -> E
        ensures end { result ≡ stopped };
}
