/// How a run of the command ends. Its number is the exit status of the process.
#[derive(Clone, Copy, Debug, PartialEq, Eq)]
pub enum Status {
    /// The script was read to its end, all was written, and nothing was refused.
    Done,
    /// The same, but at least one file or item was refused.
    Refused,
    /// The words of the command line were refused, and the usage line was written.
    Usage,
    /// There was no memory.
    OutOfMemory,
    /// A file or the source failed.
    ReadFault,
    /// The sink failed.
    WriteFault,
    /// 2^40 bytes of the script were taken.
    TooLong,
}
