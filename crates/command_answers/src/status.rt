//! What a run answers.
ghost use Rattle.std.specs.Prelude.{◌≡◌};

use pcap_io::CapFault;

/// How a run ended.
#[derive(Clone, Copy, Debug, PartialEq, Eq)]
pub enum Status {
    /// The capture was read to its end, and all is written and flushed.
    Ok,
    /// The words are no command.
    Usage,
    /// The capture is refused; the output of the records before is written.
    Malformed(CapFault),
    /// A round, counted from 0, needs this many blocks, and there are fewer; the output of the rounds before is
    /// written. In `segment` each record is a round of its own.
    PoolEmpty { round: u64, need: u32, blocks: u32 },
    /// The source failed; the output of the whole records before is written.
    ReadFault,
    /// The sink failed; a prefix of the output is written.
    WriteFault,
    /// Memory ran out; a prefix of the output is written.
    NoMemory,
}

impl Status {
    ghost use Rattle.command_answers.specs.Codes.{code_of};

    /// The code that the program ends with.
    pub fn code(&self) -> u8
        ensures code { result ≡ code_of self.now }
    {
        match self {
            Status::Ok => 0,
            Status::Usage => 2,
            Status::Malformed(_) => 3,
            Status::PoolEmpty { .. } => 4,
            Status::ReadFault => 5,
            Status::WriteFault => 6,
            Status::NoMemory => 7,
        }
    }
}
