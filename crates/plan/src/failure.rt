// What can keep the program from answering.
use refusals::Refusal;
use std::alloc::AllocError;
use std::io;
use thiserror::Error;

#[derive(Debug, Drop, Error)]
pub enum Failure {
    #[error(transparent)]
    Refused(#[from] Refusal),
    #[error(transparent)]
    Io(#[from] io::Error),
    #[error("out of memory")]
    Memory(#[from(alloc)] AllocError),
    #[error("usage: plan FILE ORIGIN DESTINATION START LATEST [--window EDGE,FROM,UNTIL].. [--late EDGE,SECONDS]..")]
    Usage,
    #[error("a number is missing, out of its range or no number")]
    NotANumber,
    #[error("unknown option: there are --window and --late")]
    UnknownOption,
}
