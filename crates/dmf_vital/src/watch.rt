use dmf_solver::Unwatched;
use dmf_state::NoMemory;

/// A watch over calls that value many arcs, nodes or pairs, one after the other. Whatever a watch does, the result of a call is the same,
/// except that a watch may end it. What is reported is only tested.
pub trait ValuingWatch {
    /// Takes note that `done` of `count` are valued, or need not be. Returns whether the call may go on: if not, it fails as if memory were
    /// refused, and only the watch knows why.
    ///
    /// A call that looks for the worst may go over the same arcs several times, and counts from 0 each time.
    fn valued(&mut self, done: usize, count: usize) -> bool;
}

impl ValuingWatch for Unwatched {
    fn valued(&mut self, _done: usize, _count: usize) -> bool {
        true
    }
}

/// Reports to the watch, and fails if the call may not go on.
pub fn report<W: ValuingWatch>(watch: &mut W, done: usize, count: usize) -> Result<(), NoMemory> {
    if watch.valued(done, count) {
        Ok(())
    } else {
        Err(NoMemory)
    }
}
