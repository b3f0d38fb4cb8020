// Why a text was not written whole.
use thiserror::Error;

/// Why a text was not written whole. A prefix of it was.
#[derive(Clone, Copy, Debug, PartialEq, Eq, Error)]
pub enum WriteRefusal {
    #[error("the write failed")]
    Fault,
    #[error("out of memory")]
    NoMemory,
}
