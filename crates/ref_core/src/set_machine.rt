//! The machine that keeps who holds which block as a list of pairs.
ghost use Rattle.std.specs.Prelude.{◌≡◌, ℕ, ◌+◌, ◌<◌, ◌≤◌, ◌++◌, List, length, take, IfOk, OnOk, OnErr};
ghost use Rattle.ref_core.specs.SetMachine.{block_of, holder_count, without, first_sets, set_step, taken, shared, read};
ghost use Rattle.ref_core.specs.SetMachine.{written, given_back, claimed, joined};
ghost use Rattle.ref_core.specs.Agreement.{answers_of, after};

use crate::event::{Answer, Event};
use crate::memory::Memory;
use block_weight::BLOCK_SIZE;
use std::alloc::{AllocError, Global};
use std::marker::Model;

/// A machine whose state is a set of pairs of holder and block, and the blocks' bytes.
#[derive(Drop)]
pub struct SetMachine {
    /// Of each live holder one, with its block.
    pairs: Vec<(u32, u32)>,
    memory: Memory,
}

impl Model for SetMachine {
    ghost use Rattle.ref_core.specs.SetMachine.{SetState, AllPlaced};
    ghost use Rattle.std.specs.Prelude.{length};

    ghost Value = { SetState };

    ghost view = { λ m. record { pairs = m.pairs.items; memory = m.memory } };

    ghost invariant = { λ m. AllPlaced (length m.memory) m.pairs.items };
}

// The block of a live holder.
fn block_of(pairs: &[(u32, u32)], holder: u32) -> Option<u32>
    ensures found { result ≡ block_of holder pairs.now }
{
    for pair in pairs {
        if holder == pair.0 {
            return Some(pair.1);
        }
    }
    None
}

// How many hold a block.
fn holder_count(pairs: &[(u32, u32)], block: u32) -> usize
    ensures count { result ≡ holder_count block pairs.now }
{
    let mut count = 0;
    for pair in pairs {
        if block == pair.1 {
            count += 1;
        }
    }
    count
}

// Takes a holder's pair out.
fn remove_pair(pairs: &mut Vec<(u32, u32)>, holder: u32)
    ensures removed { pairs.new.items ≡ without holder pairs.old.items }
{
    let mut i = 0;
    while i < pairs.len() {
        if holder == pairs[i].0 {
            pairs.remove(i);
            return;
        }
        i += 1;
    }
}

impl SetMachine {
    /// A machine of so many blocks of zeros, which nobody holds.
    pub fn make(alloc: Global, blocks: u32) -> Result<SetMachine, AllocError>
        ensures first { IfOk result (λ m. m ≡ first_sets blocks) }
    {
        let memory = Memory::zeroed(alloc, blocks as usize)?;
        Ok(SetMachine {
            pairs: Vec::new(alloc),
            memory,
        })
    }

    /// One step: the answer to an event. An event that is not lawful is answered `Unlawful` and changes nothing, and
    /// neither does one for which memory is wanting.
    pub fn step(&mut self, event: Event) -> Result<Answer, AllocError>
        ensures ok { IfOk result (λ answer. (self.new, answer) ≡ set_step self.old event) }
        ensures err { OnErr result (self.new ≡ self.old) }
    {
        match event {
            Event::Take { block, holder } => self.take(block, holder),
            Event::Share {
                holder,
                fresh,
                give: _,
            } => self.share(holder, fresh),
            Event::Read { holder, place } => Ok(self.read(holder, place)),
            Event::Write {
                holder,
                place,
                byte,
            } => Ok(self.write(holder, place, byte)),
            Event::GiveBack { holder } => Ok(self.give_back(holder)),
            Event::Claim { holder } => Ok(self.claim(holder)),
            Event::Join { holder, other } => Ok(self.join(holder, other)),
        }
    }

    fn take(&mut self, block: u32, holder: u32) -> Result<Answer, AllocError>
        ensures ok { IfOk result (λ answer. (self.new, answer) ≡ taken self.old block holder) }
        ensures err { OnErr result (self.new ≡ self.old) }
    {
        if (block as usize) < self.memory.len()
            && holder_count(&self.pairs, block) == 0
            && block_of(&self.pairs, holder).is_none()
        {
            self.pairs.push((holder, block))?;
            return Ok(Answer::Done);
        }
        Ok(Answer::Unlawful)
    }

    fn share(&mut self, holder: u32, fresh: u32) -> Result<Answer, AllocError>
        ensures ok { IfOk result (λ answer. (self.new, answer)
            ≡ shared self.old (block_of holder self.old.pairs) fresh) }
        ensures err { OnErr result (self.new ≡ self.old) }
    {
        if let Some(block) = block_of(&self.pairs, holder) {
            if block_of(&self.pairs, fresh).is_none() {
                self.pairs.push((fresh, block))?;
                return Ok(Answer::Done);
            }
        }
        Ok(Answer::Unlawful)
    }

    fn read(&self, holder: u32, place: u32) -> Answer
        ensures step { (self.now, result) ≡ read self.now (block_of holder self.now.pairs) place }
    {
        let place = place as usize;
        match block_of(&self.pairs, holder) {
            Some(block) if place < BLOCK_SIZE => Answer::Byte(
                self.memory.byte(block as usize, place),
            ),
            _ => Answer::Unlawful,
        }
    }

    fn write(&mut self, holder: u32, place: u32, byte: u8) -> Answer
        ensures step { (self.new, result) ≡ written self.old (block_of holder self.old.pairs) place byte }
    {
        let place = place as usize;
        if let Some(block) = block_of(&self.pairs, holder) {
            if place < BLOCK_SIZE && holder_count(&self.pairs, block) == 1 {
                self.memory.set_byte(block as usize, place, byte);
                return Answer::Done;
            }
        }
        Answer::Unlawful
    }

    fn give_back(&mut self, holder: u32) -> Answer
        ensures step { (self.new, result) ≡ given_back self.old (block_of holder self.old.pairs) holder }
    {
        let Some(block) = block_of(&self.pairs, holder) else {
            return Answer::Unlawful;
        };
        remove_pair(&mut self.pairs, holder);
        if holder_count(&self.pairs, block) == 0 {
            Answer::Last
        } else {
            Answer::Left
        }
    }

    fn claim(&self, holder: u32) -> Answer
        ensures step { (self.now, result) ≡ claimed self.now (block_of holder self.now.pairs) }
    {
        match block_of(&self.pairs, holder) {
            Some(block) if holder_count(&self.pairs, block) == 1 => Answer::Yes,
            Some(_) => Answer::No,
            None => Answer::Unlawful,
        }
    }

    fn join(&mut self, holder: u32, other: u32) -> Answer
        ensures step { (self.new, result) ≡ joined self.old holder other }
    {
        if holder == other {
            return Answer::Unlawful;
        }
        match (block_of(&self.pairs, holder), block_of(&self.pairs, other)) {
            (Some(block), Some(same)) if block == same => {
                remove_pair(&mut self.pairs, other);
                Answer::Done
            }
            _ => Answer::Unlawful,
        }
    }

    /// Runs the events in order, and appends their answers. Where memory is wanting, those of the first events were
    /// appended, and the machine stands after just as many.
    pub fn run_events(
        &mut self,
        events: &[Event],
        answers: &mut Vec<Answer>,
    ) -> Result<(), AllocError>
        ensures machine { OnOk result (self.new ≡ after set_step self.old events.now) }
        ensures answers { OnOk result (answers.new.items ≡ answers.old.items
            ++ answers_of set_step self.old events.now) }
        ensures err { OnErr result ((n : ℕ) × (n < length events.now)
            × (self.new ≡ after set_step self.old (take n events.now))
            × (answers.new.items ≡ answers.old.items ++ answers_of set_step self.old (take n events.now))) }
    {
        for event in events {
            answers.reserve(1)?;
            let answer = self.step(*event)?;
            answers.push_reserved(answer);
        }
        Ok(())
    }
}
