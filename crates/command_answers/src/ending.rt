//! How commands begin and end: a file header that is refused, and the flush behind the last write.
ghost use Rattle.std.specs.Prelude.{◌≡◌, ◌≤◌, ◌⊎◌, true};
ghost use Rattle.std.specs.Io.KnownBytes.{Keeps};
ghost use Rattle.off_io.specs.Faults.{Rose};
ghost use Rattle.off_io.specs.Content.{SaysFlushed};
ghost use Rattle.command_answers.specs.Ending.{IsStatusFor};

use crate::Status;
use off_io::{Failed, Sink};
use pcap_io::InFault;

/// The status for a fault of the file header.
pub fn refused(fault: InFault) -> Status
    ensures status { IsStatusFor fault result }
{
    match fault {
        InFault::Cap(fault) => Status::Malformed(fault),
        InFault::ReadFault => Status::ReadFault,
    }
}

/// The answer after the last write: the sink is flushed first.
pub fn finish<K: Sink>(sink: &mut K, status: Status) -> Status
    ensures answer { (result ≡ status) ⊎ (result ≡ Status.WriteFault) }
    ensures content { Keeps (K.held sink.old) (K.held sink.new) }
    ensures flushed { result ≡ Status.WriteFault ⊎ SaysFlushed (K.held sink.new) (K.is_flushed sink.new) true }
    ensures later { K.faults sink.old ≤ K.faults sink.new }
    ensures failed { result ≡ Status.WriteFault → (status ≡ Status.WriteFault)
        ⊎ Rose (K.faults sink.old) (K.faults sink.new) }
{
    match sink.flush() {
        Ok(()) => status,
        Err(Failed) => Status::WriteFault,
    }
}
