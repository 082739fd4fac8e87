//! What merging and cutting come to together.
ghost use Rattle.burst_c.specs.Inverse.{EthernetStays, MergedComesApart};

/// A merged frame of a burst is never refused where it is cut by the numbers of its run, and is cut into just the
/// frames of the run, byte for byte and in order.
pub fn merged_comes_apart()
    ensures law { MergedComesApart }
{}

/// A merged frame of a burst begins with the 14 bytes that the first frame of its run begins with.
pub fn ethernet_stays()
    ensures law { EthernetStays }
{}
