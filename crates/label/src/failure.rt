// Why the program ends with status 1.
use crate::command::UsageError;
use cells::refusal::CopyRefusal;
use std::alloc::AllocError;
use std::io;
use tables::clash::HouseRefusal;
use thiserror::Error;

#[derive(Debug, Drop, Error)]
pub(crate) enum Failure {
    #[error(transparent)]
    Usage(#[from] UsageError),
    // no cell stands at a place of the input, but these bytes
    #[error("{refusal}; found {found}")]
    Spoilt { refusal: CopyRefusal, found: String },
    #[error(transparent)]
    Refused(#[from] CopyRefusal),
    #[error(transparent)]
    House(#[from] HouseRefusal),
    // the input is so long that its other carrier is longer than memory can be
    #[error("there is not enough memory")]
    TooLong,
    #[error("there is not enough memory")]
    NoMemory(#[from(alloc)] AllocError),
    #[error(transparent)]
    Io(#[from] io::Error),
}
