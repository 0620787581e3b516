use dmf_streams::EngineFault;
use thiserror::Error;

/// Why the program gives no answer.
#[derive(Debug, Drop, Error)]
pub enum Fault {
    /// The arguments are invalid. The text of `clap`, which names the word and says why, is told before.
    #[error("invalid arguments")]
    Usage,
    /// A word is no UTF-8, so that it cannot be read.
    #[error("a word is not UTF-8")]
    Words,
    /// The problem's file cannot be opened.
    #[error("cannot open the problem")]
    Open,
    /// A run was stopped, or a request for memory was refused before it began.
    #[error(transparent)]
    Run(#[from] EngineFault),
}

impl Fault {
    pub const NO_MEMORY: Fault = Fault::Run(EngineFault::NoMemory);
}
