// Why a slip's way ends early.
use refusals::Refusal;
use std::alloc::AllocError;
use std::io;
use thiserror::Error;

/// A step that was refused, or memory or output that failed.
#[derive(Debug, Drop, Error)]
pub enum Stop {
    #[error("count: refused {0}")]
    Count(Refusal),
    #[error("draw: refused {0}")]
    Draw(Refusal),
    #[error("table file: refused {0}")]
    TableFile(Refusal),
    #[error("rows: refused {0}")]
    Rows(Refusal),
    #[error(transparent)]
    Memory(#[from(alloc)] AllocError),
    #[error(transparent)]
    Failed(#[from] io::Error),
}
