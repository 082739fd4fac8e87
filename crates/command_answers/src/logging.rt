//! The line that the log gets of a status.
ghost use Rattle.std.specs.Prelude.{◌≡◌, ◌≤◌, length};
ghost use Rattle.off_io.specs.Content.{AppendsPrefix};
ghost use Rattle.status_log.specs.Lines.{Logs};
ghost use Rattle.command_answers.specs.Log.{kind_name, log_line};

use crate::Status;
use off_io::Sink;
use pcap_io::CapKind;
use status_log::{
    log_malformed, log_no_memory, log_pool_empty, log_read_fault, log_usage, log_write_fault,
};

// The kind's name, as the log writes it.
fn name_of(kind: CapKind) -> &'static str
    ensures name { result.now ≡ kind_name kind }
    ensures short { length result.now ≤ 32 }
{
    match kind {
        CapKind::ShortHeader => "ShortHeader",
        CapKind::BadMagic => "BadMagic",
        CapKind::BadVersion => "BadVersion",
        CapKind::BadLinkType => "BadLinkType",
        CapKind::ShortRecordHeader => "ShortRecordHeader",
        CapKind::TooMany => "TooMany",
        CapKind::TooLong => "TooLong",
        CapKind::BadOriginal => "BadOriginal",
        CapKind::BadOffload => "BadOffload",
        CapKind::ShortRecord => "ShortRecord",
    }
}

/// Logs the line of a status, none on `Ok`. A fault of the log is ignored.
pub fn write_log<L: Sink>(log: &mut L, status: &Status)
    ensures line { Logs (L.held log.old) (L.held log.new) (L.faults log.old) (L.faults log.new) (log_line status.now) }
    ensures prefix { AppendsPrefix (L.held log.old) (L.held log.new) (log_line status.now) }
    ensures quiet { status.now ≡ Status.Ok → log.new ≡ log.old }
    ensures later { L.faults log.old ≤ L.faults log.new }
{
    match *status {
        Status::Ok => {}
        Status::Usage => log_usage(log),
        Status::Malformed(fault) => {
            log_malformed(log, name_of(fault.kind), fault.offset, fault.number)
        }
        Status::PoolEmpty {
            round,
            need,
            blocks,
        } => log_pool_empty(log, round, need, blocks),
        Status::ReadFault => log_read_fault(log),
        Status::WriteFault => log_write_fault(log),
        Status::NoMemory => log_no_memory(log),
    }
}
