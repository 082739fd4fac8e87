//! Writes a generated capture.
ghost use Rattle.std.specs.Prelude.{◌≡◌, ◌≤◌};
ghost use Rattle.off_io.specs.Faults.{Rose};
ghost use Rattle.command_answers.specs.Making.{MakeAnswers};

use cap_make::make_capture;
use command_answers::{Status, finish};
use off_io::{Sink, WriteFault};
use offload_words::MakeOptions;

// Writes the generated capture of these options.
pub(crate) fn run_make<K: Sink>(options: MakeOptions, sink: &mut K) -> Status
    ensures made { MakeAnswers options (K.held sink.old) (K.held sink.new) (K.is_flushed sink.new) result }
    ensures not_usage { result ≡ Status.Usage → ⊥ }
    ensures not_read { result ≡ Status.ReadFault → ⊥ }
    ensures later { K.faults sink.old ≤ K.faults sink.new }
    ensures write { result ≡ Status.WriteFault → Rose (K.faults sink.old) (K.faults sink.new) }
{
    match make_capture(options.seed, options.count, sink) {
        Ok(()) => finish(sink, Status::Ok),
        Err(WriteFault) => Status::WriteFault,
    }
}
