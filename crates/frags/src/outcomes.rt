//! What was given back: Soles and receipts, in places that were reserved before.
ghost use Rattle.std.specs.Prelude.{◌≡◌, ℕ, ◌+◌, ◌≤◌, [], ◌∷◌, ◌++◌, IfOk, OnOk, IsOk, MatchOption, IsTrue, ◌↔◌};
ghost use Rattle.frags.specs.Account.{Keeps, KeepsBlocks, both, of_part, of_sole, of_receipt, of_holder, of_outcomes};
ghost use Rattle.frags.specs.Growth.{Grows};
ghost use Rattle.frags.specs.Returns.{ReturnsPart, ReturnsHolder};

use crate::Holder;
use raw_block::{Part, Receipt, Released, Sole};
use std::alloc::{AllocError, Global};
use std::marker::Model;

/// The Soles and receipts that were given back, in order of return. It must be spent: by `settle`, once no Sole is in
/// it.
pub struct Outcomes {
    /// The blocks that nobody else holds.
    soles: Vec<Sole>,
    /// One for each part that was given back while others held its block.
    receipts: Vec<Receipt>,
}

impl Model for Outcomes {
    ghost use Rattle.std.specs.Prelude.{◌-◌, min, vec_len, vec_capacity};
    ghost use Rattle.frags.specs.OutcomesState.{OutcomesState};

    ghost Value = { OutcomesState };

    ghost view = { λ o. record {
      soles = o.soles.items;
      receipts = o.receipts.items;
      spare = min
          (vec_capacity o.soles - vec_len o.soles) (vec_capacity o.receipts - vec_len o.receipts);
    } };
}

impl Outcomes {
    /// Holds nothing, with no place reserved.
    pub fn new(alloc: Global) -> Outcomes
        ensures empty { (result.soles ≡ []) × (result.receipts ≡ []) }
    {
        Outcomes {
            soles: Vec::new(alloc),
            receipts: Vec::new(alloc),
        }
    }

    /// Holds nothing, with room for `n` Soles and `n` receipts.
    pub fn with_room(alloc: Global, n: usize) -> Result<Outcomes, AllocError>
        ensures empty { IfOk result (λ out. (out.soles ≡ []) × (out.receipts ≡ [])) }
        ensures room { IfOk result (λ out. n ≤ out.spare) }
    {
        let mut out = Outcomes::new(alloc);
        match out.reserve(n) {
            Ok(()) => Ok(out),
            Err(error) => {
                out.settle();
                Err(error)
            }
        }
    }

    /// Room for `n` Soles and `n` receipts more, so that giving them back takes no memory. What is reserved stays so,
    /// also where there is no memory for more.
    pub fn reserve(&mut self, n: usize) -> Result<(), AllocError>
        ensures same { (self.new.soles ≡ self.old.soles) × (self.new.receipts ≡ self.old.receipts) }
        ensures room { OnOk result (n ≤ self.new.spare) }
        ensures later { self.old.spare ≤ self.new.spare }
        ensures succeeds { n ≤ self.old.spare → IsOk result }
    {
        self.soles.reserve(n)?;
        self.receipts.reserve(n)
    }

    /// The places that are reserved for more.
    pub fn spare(&self) -> usize
        ensures value { result ≡ self.now.spare }
    {
        let soles = self.soles.capacity() - self.soles.len();
        let receipts = self.receipts.capacity() - self.receipts.len();
        soles.min(receipts)
    }

    /// Whether no Sole is in it.
    pub fn has_no_sole(&self) -> bool
        ensures none { IsTrue result ↔ self.now.soles ≡ [] }
    {
        self.soles.is_empty()
    }

    /// Keeps a Sole behind the others, in a reserved place.
    pub fn keep_sole(&mut self, sole: Sole)
        requires spare { 1 ≤ self.old.spare }
        ensures soles { self.new.soles ≡ self.old.soles ++ sole ∷ [] }
        ensures receipts { self.new.receipts ≡ self.old.receipts }
        ensures kept { Keeps (both (of_sole sole) (of_outcomes self.old)) (of_outcomes self.new) }
        ensures blocks { KeepsBlocks (both (of_sole sole) (of_outcomes self.old)) (of_outcomes self.new) }
        ensures grows { Grows 1 self.old self.new }
        ensures places { self.old.spare ≤ self.new.spare + 1 }
    {
        self.soles.push_reserved(sole);
    }

    /// Keeps a receipt behind the others, in a reserved place.
    pub fn keep_receipt(&mut self, receipt: Receipt)
        requires spare { 1 ≤ self.old.spare }
        ensures soles { self.new.soles ≡ self.old.soles }
        ensures receipts { self.new.receipts ≡ self.old.receipts ++ receipt ∷ [] }
        ensures kept { Keeps (both (of_receipt receipt) (of_outcomes self.old)) (of_outcomes self.new) }
        ensures blocks { KeepsBlocks (both (of_receipt receipt) (of_outcomes self.old)) (of_outcomes self.new) }
        ensures grows { Grows 1 self.old self.new }
        ensures places { self.old.spare ≤ self.new.spare + 1 }
    {
        self.receipts.push_reserved(receipt);
    }

    /// The Sole that came last. None exactly where there is none.
    pub fn pop_sole(&mut self) -> Option<Sole>
        ensures receipts { self.new.receipts ≡ self.old.receipts }
        ensures soles { MatchOption result ((self.old.soles ≡ []) × (self.new.soles ≡ []))
            (λ s. self.old.soles ≡ self.new.soles ++ s ∷ []) }
        ensures kept { MatchOption result (Keeps (of_outcomes self.old) (of_outcomes self.new))
            (λ s. Keeps (of_outcomes self.old) (both (of_sole s) (of_outcomes self.new))) }
        ensures blocks { MatchOption result (KeepsBlocks (of_outcomes self.old) (of_outcomes self.new))
            (λ s. KeepsBlocks (of_outcomes self.old) (both (of_sole s) (of_outcomes self.new))) }
        ensures places { self.old.spare ≤ self.new.spare }
    {
        self.soles.pop()
    }

    /// The receipt that came last. None exactly where there is none.
    pub fn pop_receipt(&mut self) -> Option<Receipt>
        ensures soles { self.new.soles ≡ self.old.soles }
        ensures receipts { MatchOption result ((self.old.receipts ≡ []) × (self.new.receipts ≡ []))
            (λ r. self.old.receipts ≡ self.new.receipts ++ r ∷ []) }
        ensures kept { MatchOption result (Keeps (of_outcomes self.old) (of_outcomes self.new))
            (λ r. Keeps (of_outcomes self.old) (both (of_receipt r) (of_outcomes self.new))) }
        ensures blocks { MatchOption result (KeepsBlocks (of_outcomes self.old) (of_outcomes self.new))
            (λ r. KeepsBlocks (of_outcomes self.old) (both (of_receipt r) (of_outcomes self.new))) }
        ensures places { self.old.spare ≤ self.new.spare }
    {
        self.receipts.pop()
    }

    /// Spends what holds no Sole, and closes its receipts.
    pub fn settle(self)
        requires empty { self.soles ≡ [] }
    {
        let Outcomes {
            soles: _,
            mut receipts,
        } = self;
        while let Some(receipt) = receipts.pop() {
            receipt.close();
        }
        receipts.destroy_empty();
    }

    /// Releases a part, and keeps what that leaves: its block's Sole, or a receipt of its weight.
    pub fn give_back(&mut self, part: Part)
        requires spare { 1 ≤ self.old.spare }
        ensures gave { ReturnsPart part self.old self.new }
        ensures grows { Grows 1 self.old self.new }
        ensures kept { Keeps (both (of_part part) (of_outcomes self.old)) (of_outcomes self.new) }
        ensures blocks { KeepsBlocks (both (of_part part) (of_outcomes self.old)) (of_outcomes self.new) }
        ensures places { self.old.spare ≤ self.new.spare + 1 }
    {
        let _ = part.weight();
        match part.release() {
            Released::Last(sole) => self.keep_sole(sole),
            Released::Left(receipt) => self.keep_receipt(receipt),
        }
    }

    /// As `give_back`, of a Sole too, which is kept as it is.
    pub fn give_back_holder(&mut self, holder: Holder)
        requires spare { 1 ≤ self.old.spare }
        ensures gave { ReturnsHolder holder self.old self.new }
        ensures grows { Grows 1 self.old self.new }
        ensures kept { Keeps (both (of_holder holder) (of_outcomes self.old)) (of_outcomes self.new) }
        ensures blocks { KeepsBlocks (both (of_holder holder) (of_outcomes self.old)) (of_outcomes self.new) }
        ensures places { self.old.spare ≤ self.new.spare + 1 }
    {
        match holder {
            Holder::Sole(sole) => self.keep_sole(sole),
            Holder::Part(part) => self.give_back(part),
        }
    }
}
