//! A whole capture: its rounds, the records that are written, and what comes back of them.
ghost use Rattle.offload_model.specs.CaptureLaws.{CapturesAreCaptured, BoundariesAreKept, RunsComeBack, RunsAreLawful};
ghost use Rattle.offload_model.specs.CaptureLaws.{ItemsAreRuns, QueuesKeepRuns, ChoicesKeepItems, FlowsComeBack};
ghost use Rattle.offload_model.specs.CaptureLaws.{ReadsBack, HeadReadsBack, WrittenComesBack, OneQueueHasAll};
ghost use Rattle.offload_model.specs.CaptureLaws.{CapturesComeBack, RecordsAreFew};

/// The packets of a capture of Ethernet frames meet what the laws below ask of packets.
pub fn captures_are_captured()
    ensures law { CapturesAreCaptured }
{}

/// The segments of a run's record are the run's packets, in order, in bytes and original length.
pub fn runs_come_back()
    ensures law { RunsComeBack }
{}

/// The record of mergeable packets is a lawful super-packet, and its numbers fit their fields of 32 bits.
pub fn runs_are_lawful()
    ensures law { RunsAreLawful }
{}

/// Two runs whose records have the same merged frame, numbers and modes are one, packet by packet, so that datagrams
/// keep their boundaries.
pub fn boundaries_are_kept()
    ensures law { BoundariesAreKept }
{}

/// A queue's items are the cuts of all its flows into maximal runs, in the order of their first packets, and nothing
/// else is, where the packets' numbers rise.
pub fn items_are_runs()
    ensures law { ItemsAreRuns }
{}

/// The runs of a round don't depend on how flows go to queues: each queue has those that begin in it, in their order.
pub fn queues_keep_runs()
    ensures law { QueuesKeepRuns }
{}

/// By any two choices of queues the items of a round are the same, but for queue and order.
pub fn choices_keep_items()
    ensures law { ChoicesKeepItems }
{}

/// Over a whole capture, the segments of the records whose frames have a key are the packets that have it, in order, in
/// bytes and original length.
pub fn flows_come_back()
    ensures law { FlowsComeBack }
{}

/// The bytes that are written read as the records that they were written from, to the end, and each passes the test of
/// whole records.
pub fn reads_back()
    ensures law { ReadsBack }
{}

/// The file header that is written has the fields of the one that was read.
pub fn head_reads_back()
    ensures law { HeadReadsBack }
{}

/// The segments of the records that are read from the written bytes bring every flow back.
pub fn written_comes_back()
    ensures law { WrittenComesBack }
{}

/// Where there is one queue, its items are what all runs come to.
pub fn one_queue_has_all()
    ensures law { OneQueueHasAll }
{}

/// Whatever merging writes of a capture's packets, segmenting it gives a capture in which each flow's packets are those
/// of the first one, in order, byte for byte and with their original lengths.
pub fn captures_come_back()
    ensures law { CapturesComeBack }
{}

/// Where there are no taps, the records that merging writes are few enough to be read again.
pub fn records_are_few()
    ensures law { RecordsAreFew }
{}
