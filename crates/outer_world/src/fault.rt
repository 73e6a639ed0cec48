//! The faults of the world outside.
use thiserror::Error;

/// Why a file was not read.
#[derive(Debug, Clone, Copy, PartialEq, Eq, Error)]
pub enum FileFault {
    /// The file could not be opened or read, as one that is missing.
    #[error("the file could not be read")]
    Failed,
    /// The file has more bytes than the limit.
    #[error("the file is too long")]
    TooLong,
    /// There was no memory for the file's bytes.
    #[error("no memory for the file")]
    NoMemory,
}

/// A piece was not taken, or only in part.
#[derive(Debug, Clone, Copy, PartialEq, Eq, Error)]
#[error("the sink could not be written")]
pub struct SinkFault;

/// Memory ran out.
#[derive(Debug, Clone, Copy, PartialEq, Eq, Error)]
#[error("no memory")]
pub struct NoMemory;
