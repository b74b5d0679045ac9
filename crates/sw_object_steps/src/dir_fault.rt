use sw_hashpath::BadFile;
use thiserror::Error;

/// Why a read of a partition gave nothing.
#[derive(Clone, Copy, Debug, PartialEq, Eq, Error)]
pub enum DirFault {
    /// A file that was read is none of a write, or one of another path, time or kind. It never comes where files tell their contents and are in
    /// order.
    #[error("{0}")]
    Damaged(BadFile),
    /// A call of the device's volume failed.
    #[error("a call on the volume failed")]
    Failed,
    /// Memory ran out.
    #[error("out of memory")]
    NoMemory,
}
