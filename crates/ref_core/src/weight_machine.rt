//! The machine that keeps weights: a count word for each block, and no list of a block's holders.
ghost use Rattle.std.specs.Prelude.{◌≡◌, ℕ, ◌+◌, ◌<◌, ◌≤◌, ◌++◌, List, length, take, replicate, IfOk, IfSome, IsSome};
ghost use Rattle.std.specs.Prelude.{OnOk, OnErr};
ghost use Rattle.indexmap.specs.IndexMap.{spare};
ghost use Rattle.ref_core.specs.WeightMachine.{IsWeighed, IsHoldingIn, word_of, holding_of, with_holding};
ghost use Rattle.ref_core.specs.WeightMachine.{first_weights, weight_step, taken, shared, read, written, given_back};
ghost use Rattle.ref_core.specs.WeightMachine.{claimed, joined};
ghost use Rattle.ref_core.specs.Agreement.{answers_of, after};

use crate::event::{Answer, Event};
use crate::memory::Memory;
use block_weight::{BLOCK_SIZE, FULL};
use indexmap::IndexMap;
use std::alloc::{AllocError, Global};
use std::marker::Model;

/// What a live holder holds.
#[derive(Clone, Copy)]
pub(crate) struct Holding {
    pub(crate) block: u32,
    pub(crate) weight: u64,
}

/// A machine whose state is each holder's block and weight, each block's word, and the blocks' bytes.
#[derive(Drop)]
pub struct WeightMachine {
    /// Of each live holder, by its number.
    holdings: IndexMap<u32, Holding>,
    /// Of each block, by its number: what its holders weigh together.
    words: Vec<u64>,
    memory: Memory,
}

impl Model for WeightMachine {
    ghost use Rattle.ref_core.specs.WeightMachine.{WeightState, IsWeighed};

    ghost Value = { WeightState };

    ghost view = { λ m. record { holdings = m.holdings.entries; words = m.words.items; memory = m.memory } };

    ghost invariant = { λ m. IsWeighed (record {
      holdings = m.holdings.entries;
      words = m.words.items;
      memory = m.memory;
    }) };
}

fn zero_words(alloc: Global, blocks: usize) -> Result<Vec<u64>, AllocError>
    ensures zeros { IfOk result (λ words. words.items ≡ replicate blocks 0) }
{
    vec![in alloc; 0; blocks]
}

// Puts a holding where there is room.
fn put_reserved(holdings: &mut IndexMap<u32, Holding>, holder: u32, holding: Holding)
    requires room { 0 < spare holdings.old }
    ensures entries { holdings.new.entries ≡ with_holding holder holding.block holding.weight holdings.old.entries }
    ensures room { spare holdings.old ≤ spare holdings.new + 1 }
{
    if holdings.insert(holder, holding).is_err() {
        unreachable!();
    }
}

// Puts a holding in the place of the holder's last one.
fn put_again(holdings: &mut IndexMap<u32, Holding>, holder: u32, holding: Holding)
    requires there { IsSome (holding_of holder holdings.old.entries) }
    ensures entries { holdings.new.entries ≡ with_holding holder holding.block holding.weight holdings.old.entries }
{
    if holdings.insert(holder, holding).is_err() {
        unreachable!();
    }
}

impl WeightMachine {
    /// A machine of so many blocks of zeros, which nobody holds.
    pub fn make(alloc: Global, blocks: u32) -> Result<WeightMachine, AllocError>
        ensures first { IfOk result (λ m. m ≡ first_weights blocks) }
    {
        let memory = Memory::zeroed(alloc, blocks as usize)?;
        let words = zero_words(alloc, blocks as usize)?;
        Ok(WeightMachine {
            holdings: IndexMap::new(alloc),
            words,
            memory,
        })
    }

    /// The word of a block: what its holders weigh together.
    pub fn word(&self, block: u32) -> u64
        requires inside { block < length self.now.words }
        ensures value { result ≡ word_of self.now block }
        ensures weighed { IsWeighed self.now }
    {
        self.words[block as usize]
    }

    fn holding_of(&self, holder: u32) -> Option<Holding>
        ensures value { result ≡ holding_of holder self.now.holdings }
        ensures live { IfSome result (IsHoldingIn self.now) }
    {
        self.holdings.get(&holder).copied()
    }

    /// One step: the answer to an event. An event that is not lawful is answered `Unlawful` and changes nothing, and
    /// neither does one for which memory is wanting.
    pub fn step(&mut self, event: Event) -> Result<Answer, AllocError>
        ensures ok { IfOk result (λ answer. (self.new, answer) ≡ weight_step self.old event) }
        ensures err { OnErr result (self.new ≡ self.old) }
    {
        match event {
            Event::Take { block, holder } => self.take(block, holder),
            Event::Share {
                holder,
                fresh,
                give,
            } => self.share(holder, fresh, give),
            Event::Read { holder, place } => Ok(self.read(holder, place)),
            Event::Write {
                holder,
                place,
                byte,
            } => Ok(self.write(holder, place, byte)),
            Event::GiveBack { holder } => Ok(self.give_back(holder)),
            Event::Claim { holder } => Ok(self.claim(holder)),
            Event::Join { holder, other } => Ok(self.join(holder, other)),
        }
    }

    fn take(&mut self, block: u32, holder: u32) -> Result<Answer, AllocError>
        ensures ok { IfOk result (λ answer. (self.new, answer) ≡ taken self.old block holder) }
        ensures err { OnErr result (self.new ≡ self.old) }
    {
        let place = block as usize;
        if place < self.words.len() && self.word(block) == 0 && self.holding_of(holder).is_none() {
            self.holdings.insert(
                holder,
                Holding {
                    block,
                    weight: FULL,
                },
            )?;
            self.words[place] = FULL;
            return Ok(Answer::Done);
        }
        Ok(Answer::Unlawful)
    }

    fn share(&mut self, holder: u32, fresh: u32, give: u64) -> Result<Answer, AllocError>
        ensures ok { IfOk result (λ answer. (self.new, answer)
            ≡ shared self.old (holding_of holder self.old.holdings) holder fresh give) }
        ensures err { OnErr result (self.new ≡ self.old) }
    {
        let Some(held) = self.holding_of(holder) else {
            return Ok(Answer::Unlawful);
        };
        if self.holding_of(fresh).is_some() {
            return Ok(Answer::Unlawful);
        }
        if give == 0 || held.weight <= give {
            return Ok(Answer::BadGive);
        }
        // An insert may use up a place also where it puts a value in the place of another.
        self.holdings.reserve(2)?;
        let block = held.block;
        let weight = held.weight - give;
        put_reserved(&mut self.holdings, holder, Holding { block, weight });
        put_reserved(
            &mut self.holdings,
            fresh,
            Holding {
                block,
                weight: give,
            },
        );
        Ok(Answer::Done)
    }

    fn read(&self, holder: u32, place: u32) -> Answer
        ensures step { (self.now, result) ≡ read self.now (holding_of holder self.now.holdings) place }
    {
        let place = place as usize;
        match self.holding_of(holder) {
            Some(held) if place < BLOCK_SIZE => Answer::Byte(
                self.memory.byte(held.block as usize, place),
            ),
            _ => Answer::Unlawful,
        }
    }

    fn write(&mut self, holder: u32, place: u32, byte: u8) -> Answer
        ensures step { (self.new, result) ≡ written self.old (holding_of holder self.old.holdings) place byte }
    {
        let place = place as usize;
        if let Some(held) = self.holding_of(holder) {
            let block = held.block as usize;
            if place < BLOCK_SIZE && held.weight == self.word(held.block) {
                self.memory.set_byte(block, place, byte);
                return Answer::Done;
            }
        }
        Answer::Unlawful
    }

    fn give_back(&mut self, holder: u32) -> Answer
        ensures step { (self.new, result) ≡ given_back self.old (holding_of holder self.old.holdings) holder }
    {
        let Some(held) = self.holding_of(holder) else {
            return Answer::Unlawful;
        };
        let block = held.block as usize;
        let word = self.word(held.block) - held.weight;
        self.holdings.shift_remove(&holder);
        self.words[block] = word;
        if word == 0 {
            Answer::Last
        } else {
            Answer::Left
        }
    }

    fn claim(&mut self, holder: u32) -> Answer
        ensures step { (self.new, result) ≡ claimed self.old (holding_of holder self.old.holdings) holder }
    {
        let Some(held) = self.holding_of(holder) else {
            return Answer::Unlawful;
        };
        let block = held.block as usize;
        if held.weight != self.word(held.block) {
            return Answer::No;
        }
        put_again(
            &mut self.holdings,
            holder,
            Holding {
                block: held.block,
                weight: FULL,
            },
        );
        self.words[block] = FULL;
        Answer::Yes
    }

    fn join(&mut self, holder: u32, other: u32) -> Answer
        ensures step { (self.new, result) ≡ joined self.old (holding_of holder self.old.holdings)
            (holding_of other self.old.holdings) holder other }
    {
        if holder == other {
            return Answer::Unlawful;
        }
        let Some(held) = self.holding_of(holder) else {
            return Answer::Unlawful;
        };
        let Some(ends) = self.holding_of(other) else {
            return Answer::Unlawful;
        };
        if held.block != ends.block {
            return Answer::Unlawful;
        }
        let weight = held.weight + ends.weight;
        self.holdings.shift_remove(&other);
        put_again(
            &mut self.holdings,
            holder,
            Holding {
                block: held.block,
                weight,
            },
        );
        Answer::Done
    }

    /// Runs the events in order, and appends their answers. Where memory is wanting, those of the first events were
    /// appended, and the machine stands after just as many.
    pub fn run_events(
        &mut self,
        events: &[Event],
        answers: &mut Vec<Answer>,
    ) -> Result<(), AllocError>
        ensures machine { OnOk result (self.new ≡ after weight_step self.old events.now) }
        ensures answers { OnOk result (answers.new.items ≡ answers.old.items
            ++ answers_of weight_step self.old events.now) }
        ensures err { OnErr result ((n : ℕ) × (n < length events.now)
            × (self.new ≡ after weight_step self.old (take n events.now))
            × (answers.new.items ≡ answers.old.items ++ answers_of weight_step self.old (take n events.now))) }
    {
        for event in events {
            answers.reserve(1)?;
            let answer = self.step(*event)?;
            answers.push_reserved(answer);
        }
        Ok(())
    }
}
