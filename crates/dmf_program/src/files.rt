//! Files by their paths.
ghost use Rattle.std.specs.Prelude.{List, ℕ, Result, Ok, Err, MatchResult};
ghost use Rattle.dmf_text.specs.Streams.{Reader};
ghost use Rattle.dmf_host.specs.declared.fault.Fault.{Fault};

use dmf_host::Fault;
use dmf_text::Source;

/// What opens files.
pub trait Files<P: Source> {
    // What opening the file at a path may give: a file with this reader, or a fault.
    ghost opens: { Self → List ℕ → Result Reader Fault → Type 0 };

    /// Opens the file at the path, to be read from its beginning.
    fn open(&self, path: &str) -> Result<P, Fault>
        ensures { MatchResult result (λ file. opens self.now path.now (Ok (P.left file)))
            (λ fault. opens self.now path.now (Err fault)) };
}
