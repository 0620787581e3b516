//! The words of the program's arguments, as the system gives them.
ghost use Rattle.std.specs.Prelude.{◌≡◌, IfErr};
ghost use Rattle.dmf_host.specs.Ending.{IsUnread, unread};

use crate::fault::Fault;
use std::env;
use std::io::ErrorKind;

/// The words, of which the first is the program's name.
pub fn words(rt: &HostRuntime) -> Result<Vec<String>, Fault>
    ensures { IfErr result IsUnread }
{
    let words = match env::args(rt) {
        Ok(words) => words,
        Err(error) => return Err(fault_of_kind(error.kind())),
    };
    match words.collect(rt.alloc()) {
        Ok(words) => Ok(words),
        Err(_) => Err(Fault::NO_MEMORY),
    }
}

/// Why the words cannot be read: one of them is not UTF-8, or memory was refused.
fn fault_of_kind(kind: ErrorKind) -> Fault
    ensures { result ≡ unread kind }
{
    if kind == ErrorKind::OutOfMemory {
        Fault::NO_MEMORY
    } else {
        Fault::Words
    }
}
