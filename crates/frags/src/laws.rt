//! Laws of the account.
ghost use Rattle.frags.specs.RoundAccount.{KeepsIsSettling, SettlingAddsUp, BlockIsHome};

/// What is kept block by block is kept mark by mark.
pub fn keeps_is_settling()
    ensures law { KeepsIsSettling }
{}

/// The account by marks adds up over calls.
pub fn settling_adds_up()
    ensures law { SettlingAddsUp }
{}

/// A block whose full weight went in, and of which less is held, has its own Sole at home.
pub fn block_is_home()
    ensures law { BlockIsHome }
{}
