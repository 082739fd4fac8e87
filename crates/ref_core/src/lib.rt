//! Who holds which block, twice over: as a set of pairs, and as weights.
//!
//! A block of 2048 bytes has holders, which come and go by events: take, share, read, write, give back, claim, join.
//! The set machine keeps the pairs of holder and block, and so knows who is the only holder, and who is the last. The
//! weight machine knows no more than each holder's weight and a word for each block, which is what a count word in
//! memory can be. `specs/SetMachine.antt` and `specs/WeightMachine.antt` say what one step of each answers, and `step`
//! and `run_events` of both machines are proved to answer just that.
//!
//! `machines_agree` is the law: over every list of events at which the weights answer no `BadGive`, and so over every
//! interleaving of such holders, the weights answer as the pairs do. `weights_balance` is the rule by which a word and
//! what was given back add up to the full weight.
//!
//! ```
//! let mut machine = WeightMachine::make(alloc, 1)?;
//! machine.step(Event::Take {
//!     block: 0,
//!     holder: 1,
//! })?; // Done
//! machine.step(Event::Share {
//!     holder: 1,
//!     fresh: 2,
//!     give: 5,
//! })?; // Done
//! let answer = machine.step(Event::GiveBack { holder: 2 })?; // Left
//! ```
//!
//! Tests: `buffer_tests`, module `machines`.
//!
//! Why so:
//!
//! - **The weight machine keeps its holders in a map in insertion order**, whose contract is an equation of lists. So
//!   the definition stays a list, and a step looks its holder up in constant time. The set machine keeps a plain list
//!   of pairs, as it is the model.
//! - **An event's numbers**: blocks, holders and places are `u32`, a given weight is `u64`. A place of 2048 or more and
//!   a block that the machine doesn't have aren't lawful.
#![tactic(auto)]

ghost use Rattle.ref_core.specs.Agreement.{MachinesAgree};

mod event;
mod memory;
mod set_machine;
mod weight_machine;

pub use block_weight::{BLOCK_SIZE, FULL};
pub use event::{Answer, Event};
pub use set_machine::SetMachine;
pub use weight_machine::WeightMachine;

/// The law of the two machines: over every list of events at which the weight machine answers no `BadGive`, both give
/// the same answers.
pub fn machines_agree()
    ensures law { MachinesAgree }
{}
