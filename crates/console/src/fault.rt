// What keeps a line from being carried out.
use std::alloc::AllocError;
use std::io;
use thiserror::Error;

/// Why a line cannot be carried out.
#[derive(Clone, Copy, Debug, Error)]
pub enum Reason {
    #[error("unknown command")]
    UnknownCommand,
    #[error("wrong arguments")]
    WrongArguments,
    #[error("no model")]
    NoModel,
    #[error("no code")]
    NoCode,
    #[error("no store")]
    NoStore,
    #[error("the store is running")]
    StoreIsRunning,
    #[error("the store is plotting")]
    StoreIsPlotting,
    #[error("no such slip")]
    NoSuchSlip,
    #[error("no such cell")]
    NoSuchCell,
    #[error("shows no pair")]
    ShowsNoPair,
}

/// A reason is answered, and the program goes on; where memory or output fails, it ends.
#[derive(Debug, Drop, Error)]
pub enum Fault {
    #[error(transparent)]
    Cannot(#[from] Reason),
    #[error(transparent)]
    Failed(#[from] io::Error),
    #[error(transparent)]
    OutOfMemory(#[from(alloc)] AllocError),
}
