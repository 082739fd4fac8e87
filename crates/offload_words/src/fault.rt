//! Why words give no command.

/// Why a line of words gives no command.
#[derive(Clone, Copy, Debug, PartialEq, Eq)]
pub enum WordsFault {
    /// The line is none of the command set, or asks for help.
    Usage,
    /// Memory ran out. This says nothing of the line.
    NoMemory,
}
