//! Laws of what `run` says.

ghost use Rattle.command_answers.specs.Laws.{EveryFlowComesBack};
ghost use Rattle.command_answers.specs.PlainWords.{EveryRecordReturns, InPlainWords, PrefixesInPlainWords};

use cap_make::made_reads_back;

/// `merge` and then `segment` bring every flow back, record by record.
pub fn every_flow_comes_back()
    ensures law { EveryFlowComesBack }
{}

/// On each line that `check` writes as many records returned as there are: what it counts are the segments that equal
/// the packets.
pub fn every_record_returns()
    ensures law { EveryRecordReturns }
{}

/// What the clause `given` of `run` says of `merge`, `segment` and `check`, in plain words: at `Ok` the capture has no
/// fault, no round exceeds the blocks, all is read, and all of the output is written and flushed; `Malformed` with the
/// capture's first fault, and the output of the records before it; `PoolEmpty` with the first round that exceeds the
/// blocks, its need, and the output of the rounds before it; at a fault of the source the output of what was read of
/// it, in which no round exceeds the blocks; at a fault of the sink and for want of memory a prefix of the output of
/// what was read (`prefixes_in_plain_words` says more). The output of `check` are lines, written at the end: for want
/// of memory there is none. Of a generated capture nothing is read, and it has no fault.
pub fn answers_in_plain_words<K>()
    ensures law { InPlainWords K }
{
    made_reads_back();
}

/// What the clause `prefix` of `run` says of `merge`, `segment` and `check`, in plain words: whatever the status, a
/// prefix of the output that would have come of all that was given, however little of it was read. `merge` and `check`
/// of a source that failed say it of what was read alone.
pub fn prefixes_in_plain_words()
    ensures law { PrefixesInPlainWords }
{}
