//! The files of a run: the problem, and standard output.
ghost use Rattle.std.specs.Prelude.{◌≡◌, IfErr};
ghost use Rattle.dmf_host.specs.Ending.{IsUnopened, no_memory};

use crate::fault::Fault;
use dmf_streams::{EngineFault, MAX_BYTES};
use dmf_text::StdSink;
use std::fs::File;
use std::io::BufWriter;
use std::rt::Stdout;

/// How many bytes the buffer before standard output holds.
const OUTPUT_BUFFER: usize = 65536;

/// Standard output with a buffer. Fails only if memory is refused.
pub fn output(rt: &HostRuntime) -> Result<StdSink<BufWriter<Stdout>>, Fault>
    ensures { IfErr result (λ fault. fault ≡ no_memory) }
{
    match BufWriter::with_capacity(rt.alloc(), OUTPUT_BUFFER, rt.stdout()) {
        Ok(writer) => Ok(StdSink::new(writer)),
        Err(_) => Err(Fault::NO_MEMORY),
    }
}

/// Opens the problem's file. One whose size is past the limit is not read at all.
///
/// Where standard input was closed when the program began, the system gives its descriptor to the next file that is opened,
/// and the problem would be read as the commands too. So the problem is read by a copy of the first descriptor, which is
/// none of the standard streams', and the first one is closed.
pub fn open_problem(rt: &HostRuntime, path: &str) -> Result<File, Fault>
    ensures { IfErr result IsUnopened }
{
    let Ok(file) = File::open(rt, path).and_then(|file| file.try_clone()) else {
        return Err(Fault::Open);
    };
    match file.metadata() {
        Ok(told) if told.is_file() && told.len() > MAX_BYTES => {
            Err(Fault::Run(EngineFault::TooMuchInput))
        }
        _ => Ok(file),
    }
}
