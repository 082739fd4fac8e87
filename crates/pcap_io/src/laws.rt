//! Laws of the definitions, each carried by a function that does nothing.
ghost use Rattle.pcap_io.specs.Laws.{OffHeadReadsBack, OffHeadWritesBack, OffHead2ReadsBack, OffHead2WritesBack};
ghost use Rattle.pcap_io.specs.Laws.{RecHeadReadsBack, RecHeadWritesBack, FileHeadReadsBack, CaptureSplits};
ghost use Rattle.pcap_io.specs.Laws.{SplitIsUnique, CaptureReadsBack, LengthsByRecord, LengthsOfPackets};

/// An offload header that is written is read back.
pub fn off_head_reads_back()
    ensures law { OffHeadReadsBack }
{}

/// An offload header that is read is written back.
pub fn off_head_writes_back()
    ensures law { OffHeadWritesBack }
{}

/// The same of a header of version 2: read back,
pub fn off_head2_reads_back()
    ensures law { OffHead2ReadsBack }
{}

/// and written back.
pub fn off_head2_writes_back()
    ensures law { OffHead2WritesBack }
{}

/// A record header that is written is read back.
pub fn rec_head_reads_back()
    ensures law { RecHeadReadsBack }
{}

/// A record header that is read is written back.
pub fn rec_head_writes_back()
    ensures law { RecHeadWritesBack }
{}

/// A file header that is written is lawful and is read back.
pub fn file_head_reads_back()
    ensures law { FileHeadReadsBack }
{}

/// The bytes of a capture are its file header, the records that are read, spelled out, and a rest that starts no whole
/// lawful record: what is read is the longest list of whole lawful records from the front.
pub fn capture_splits()
    ensures law { CaptureSplits }
{}

/// This split is the only one.
pub fn split_is_unique()
    ensures law { SplitIsUnique }
{}

/// A capture that is written of lawful packets reads as these packets and ends well.
pub fn capture_reads_back()
    ensures law { CaptureReadsBack }
{}

/// The captured lengths of a capture's lawful record headers go record by record.
pub fn lengths_go_by_record()
    ensures law { LengthsByRecord }
{}

/// They are those of the packets that a capture holds, and of at most one record more, which is cut short.
pub fn lengths_are_of_packets()
    ensures law { LengthsOfPackets }
{}
