//! The flag that ends long calls, and the watch that looks at it.
use dmf_solver::{Turn, Watch};
use dmf_vital::ValuingWatch;
use std::alloc::{AllocError, Global};
use std::marker::Model;
use std::sync::Arc;
use std::sync::atomic::AtomicBool;
use std::sync::atomic::Ordering::SeqCst;

/// A flag with several owners, each of them in any thread.
#[derive(Drop)]
pub struct Flag {
    raised: Arc<AtomicBool>,
}

impl Model for Flag {
    ghost Value = { Unit {0} };

    ghost view = { λ _. tt };
}

impl Flag {
    /// Makes a flag that is not raised.
    pub fn new(alloc: Global) -> Result<Flag, AllocError> {
        let raised = Arc::new(alloc, AtomicBool::new(false))?;
        Ok(Flag { raised })
    }

    /// Another owner of the same flag. Fails if the flag has 2^63 owners.
    pub fn share(&self) -> Result<Flag, AllocError> {
        let raised = Arc::try_clone(&self.raised)?;
        Ok(Flag { raised })
    }

    /// Raises the flag, or takes it down.
    pub fn set(&self, raised: bool) {
        self.raised.store(raised, SeqCst);
    }

    /// Whether the flag is raised.
    pub fn is_raised(&self) -> bool {
        self.raised.load(SeqCst)
    }
}

/// Ends a call once the flag is raised.
#[derive(Drop)]
pub struct StopWatch<'a> {
    flag: &'a Flag,
    /// Whether it has ended a call.
    pub has_stopped: bool,
}

impl<'a> StopWatch<'a> {
    /// A watch that has ended nothing.
    pub fn new(flag: &'a Flag) -> Self {
        StopWatch {
            flag,
            has_stopped: false,
        }
    }

    /// Looks at the flag. Returns whether the call may go on.
    fn looks(&mut self) -> bool {
        self.has_stopped = self.flag.is_raised();
        !self.has_stopped
    }
}

impl Watch for StopWatch<'_> {
    fn augmented(&mut self, _value: u64, _links: u32) {}

    fn lowered(&mut self, _turn: Turn, _amount: u64) {}

    fn goes_on(&mut self) -> bool {
        self.looks()
    }
}

impl ValuingWatch for StopWatch<'_> {
    fn valued(&mut self, _done: usize, _count: usize) -> bool {
        self.looks()
    }
}
