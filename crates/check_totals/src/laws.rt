//! How counting goes on, and that the lines tell what was counted.
ghost use Rattle.check_totals.specs.Tallies.{BoundsAdd, CountingGoesByRound, LanesStay, RecordsReturn, TotalsAddUp};
ghost use Rattle.check_totals.specs.Tallies.{TotalsAreFew, TotalsAreTold, TotalsGoByRound};

/// Counting goes round by round: one that is full and fits is counted before the others, and the last one is counted as
/// the capture ends, where no record exceeds the blocks.
pub fn counting_goes_by_round()
    ensures law { CountingGoesByRound }
{}

/// Rounds follow one another, and what is counted behind them is added to what they count.
pub fn totals_add_up()
    ensures law { TotalsAddUp }
{}

/// The totals of packets are those of their rounds, added.
pub fn totals_go_by_round()
    ensures law { TotalsGoByRound }
{}

/// Where all was counted from nothing, the lines of the totals are what checking writes.
pub fn totals_are_told()
    ensures law { TotalsAreTold }
{}

/// A round's numbers don't exceed its packets, and those of taps not the bytes that these may have.
pub fn totals_are_few()
    ensures law { TotalsAreFew }
{}

/// Each record of a queue comes back, byte for byte and in original length.
pub fn records_return()
    ensures law { RecordsReturn }
{}

/// Where totals are added, their bounds are.
pub fn bounds_add()
    ensures law { BoundsAdd }
{}

/// There are as many lanes as the options say, and of as many the totals of no packet add nothing.
pub fn lanes_stay()
    ensures law { LanesStay }
{}
