//! Checks captures by two sides: the next rounds are read while one is worked and compared, with all who run lanes
//! beside them.
//!
//! [`check_beside`] goes by the driver that merges (`pipeline::handle_beside`), over what `checking` does with a round
//! (`Counting`).
//!
//! Proved, by the clauses of [`check_beside`]:
//!
//! - `checked`, one record of all that checking a capture says (`Checked` of `checking`). Its `given`: the totals are
//!   those of the packets within the blocks, and checking ends where the capture's bytes stop it, by the model that
//!   merging ends by (`counting`); after a read fault they are those of the bytes that are gone. Its `home` and
//!   `named`: all blocks are home again, just those that were, whatever the ending. Its `pauses`: reading has no more
//!   pauses than takes that found nothing.
//! - `gives`: spares go back while their round is worked.
//!
//! ```
//! let end = check_beside(
//!     &rt,
//!     alloc,
//!     &mut rounds,
//!     &mut reader,
//!     &mut totals,
//!     &NoGate,
//! );
//! ```
//!
//! Tests: `engine_tests`, modules `reading_beside::checks` and `reading_beside::pausing`.
//!
//! Why so: it alone wants two sides and a crew, so that comparing and counting are proved beside these, and whoever
//! checks a round alone stands on neither.
#![tactic(auto)]

mod checked;

pub use checked::check_beside;
