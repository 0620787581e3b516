//! Texts that C gets.
ghost use Rattle.std.specs.Prelude.{◌≡◌, ◌≢◌, [], Some, IfOk};
ghost use Rattle.dmf_text.specs.Written.{problem_text, solution_text};
ghost use Rattle.dmf_c.specs.Codes.{OfPresent};
ghost use Rattle.dmf_c.specs.Status.{DMF_OK};
ghost use Rattle.dmf_c.specs.Texts.{GivesText, AnswersText};

use crate::handle::Handle;
use dmf_state::{NoMemory, State};
use dmf_text::{Failed, Sink, write_problem, write_solution};
use std::alloc::Global;

/// The problem text of the present state.
#[unsafe(no_mangle)]
pub extern "C" fn dmf_session_problem(
    alloc: Global,
    session: &mut Handle,
    text: &mut [u8],
    size: &mut usize,
) -> u32
    ensures answer { OfPresent session.old.timeline (λ s. AnswersText (problem_text s.network) result text.old text.new size.old size.new) }
    ensures refused { result ≢ DMF_OK → text.new ≡ text.old }
    ensures unchanged { session.new.timeline ≡ session.old.timeline }
{
    match problem_bytes(alloc, session.plan().present()) {
        Ok(bytes) => give(&bytes, text, size),
        Err(NoMemory) => 1,
    }
}

/// The solution text of the present state.
#[unsafe(no_mangle)]
pub extern "C" fn dmf_session_solution(
    alloc: Global,
    session: &mut Handle,
    text: &mut [u8],
    size: &mut usize,
) -> u32
    ensures answer { OfPresent session.old.timeline (λ s. AnswersText (solution_text s) result text.old text.new size.old size.new) }
    ensures refused { result ≢ DMF_OK → text.new ≡ text.old }
    ensures unchanged { session.new.timeline ≡ session.old.timeline }
{
    match solution_bytes(alloc, session.plan().present()) {
        Ok(bytes) => give(&bytes, text, size),
        Err(NoMemory) => 1,
    }
}

/// A sink that keeps all it gets.
#[derive(Drop)]
struct Page {
    bytes: Vec<u8>,
    failed: bool,
}

impl Sink for Page {
    ghost written = { λ p. record { contents = Some p.bytes.items; has_failed = p.failed } };

    fn put(&mut self, bytes: &[u8]) -> Result<usize, Failed> {
        match self.bytes.extend_from_slice(bytes) {
            Ok(()) => Ok(bytes.len()),
            Err(_) => {
                self.failed = true;
                Err(Failed)
            }
        }
    }

    fn flush(&mut self) -> Result<(), Failed> {
        Ok(())
    }
}

impl Page {
    fn new(alloc: Global) -> Page
        ensures { result.bytes.items ≡ [] }
    {
        Page {
            bytes: Vec::new(alloc),
            failed: false,
        }
    }
}

fn problem_bytes(alloc: Global, state: &State) -> Result<Vec<u8>, NoMemory>
    ensures { IfOk result (λ bytes. bytes.items ≡ problem_text state.now.network) }
{
    let mut page = Page::new(alloc);
    match write_problem(state, &mut page) {
        Ok(()) => Ok(page.bytes),
        Err(_) => Err(NoMemory),
    }
}

fn solution_bytes(alloc: Global, state: &State) -> Result<Vec<u8>, NoMemory>
    ensures { IfOk result (λ bytes. bytes.items ≡ solution_text state.now) }
{
    let mut page = Page::new(alloc);
    match write_solution(state, &mut page) {
        Ok(()) => Ok(page.bytes),
        Err(_) => Err(NoMemory),
    }
}

/// Gives the bytes if they fit, and says how many there are.
fn give(bytes: &[u8], text: &mut [u8], size: &mut usize) -> u32
    ensures answer { GivesText bytes.now result text.old text.new size.new }
    ensures refused { result ≢ DMF_OK → text.new ≡ text.old }
{
    *size = bytes.len();
    if text.len() < bytes.len() {
        return 10;
    }
    text[..bytes.len()].copy_from_slice(bytes);
    0
}
