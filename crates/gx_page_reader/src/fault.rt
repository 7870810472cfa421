//! Why a page tells nothing.

use thiserror::Error;

/// Why a page's answer tells nothing.
#[derive(Clone, Copy, Debug, PartialEq, Eq, Error)]
pub enum PageFault {
    /// Memory was refused.
    #[error("out of memory")]
    OutOfMemory,
    /// It is no response of HTTP/1.1.
    #[error("its answer is no HTTP")]
    NoResponse,
    /// More bytes would have to come of it.
    #[error("its answer is cut short")]
    CutShort,
    /// Its status is this one, not 200.
    #[error("it answers with status {0}")]
    OtherStatus(u16),
    /// It is not what the page of a gate tells.
    #[error("its answer is not what the page of a gate tells")]
    NoState,
}
