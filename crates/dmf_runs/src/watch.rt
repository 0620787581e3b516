use dmf_session::{Refusal, Reply};
use dmf_solver::{Unwatched, Watch};

/// A watch of a run of command lines. The run also reports to it each answer, once its reply is written and flushed.
pub trait SessionWatch: Watch {
    /// The session carried out a command, with this reply.
    fn carried_out(&mut self, _reply: &Reply) {}

    /// This line was refused. It is given without its end, and a line that is too long with its first
    /// [`MAX_LINE`](crate::MAX_LINE) bytes.
    fn refused(&mut self, _line: &[u8], _refusal: Refusal) {}
}

impl SessionWatch for Unwatched {}
