//! A law of generated captures, carried by a function that does nothing else.
ghost use Rattle.cap_make.specs.Laws.{MadeReadsBack};

use pcap_io::capture_reads_back;

/// A generated capture reads to its end, as its packets, which are as many as were wanted.
pub fn made_reads_back()
    ensures law { MadeReadsBack }
{
    capture_reads_back();
}
