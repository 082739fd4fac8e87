//! Laws of what stands on the wire, and of what is written of a capture, record by record.
ghost use Rattle.wire_model.specs.Laws.{AllAreFilled, CutComesBack, CutIsMergeable, FilledIsCaptured, FilledIsRight};
ghost use Rattle.wire_model.specs.Laws.{OthersPass, PayloadStays, RightStays};
ghost use Rattle.wire_model.specs.Passing.{WiresGrow, WiringGoesByRecord};

/// What is written goes record by record, in the order in which each is judged: the blocks, and whether it is whole.
pub fn wiring_goes_by_record()
    ensures law { WiringGoesByRecord }
{}

/// What is written of the first bytes is a prefix of what is written of all.
pub fn wires_grow()
    ensures law { WiresGrow }
{}

/// A packet that was captured whole, has a shape and right lengths, and of which no sum stays wrong, has right lengths
/// and sums once it is filled, and is as long as it was.
pub fn filled_is_right()
    ensures law { FilledIsRight }
{}

/// Where all sums are wanted, none stays wrong.
pub fn all_are_filled()
    ensures law { AllAreFilled }
{}

/// A packet whose sums are right, and which isn't cut, stays as it is.
pub fn right_stays()
    ensures law { RightStays }
{}

/// A packet that has no shape, was cut short or has a wrong length passes byte for byte.
pub fn others_pass()
    ensures law { OthersPass }
{}

/// The segments of a packet that is cut may be merged: so each has right lengths and sums, and merging finds one run.
pub fn cut_is_mergeable()
    ensures law { CutIsMergeable }
{}

/// The segments of a packet that is cut carry its payload, each byte once and in order.
pub fn payload_stays()
    ensures law { PayloadStays }
{}

/// Merging the segments of a packet that is cut gives its frame again, byte for byte.
pub fn cut_comes_back()
    ensures law { CutComesBack }
{}

/// A packet that can be captured is one still once it is filled, so these laws hold of what is written of it.
pub fn filled_is_captured()
    ensures law { FilledIsCaptured }
{}
