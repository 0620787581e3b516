//! What the program needs of the system beside a runner and the two streams on which it answers its words.
use dmf_host::Fault;

/// What knows the system.
pub trait Host {
    /// Returns whether this help is shown where no manual page is found.
    fn lacks_page(&self, help: &str) -> bool;

    /// Tells why the program gives no answer. That of wrong words is told already.
    fn tell(&self, fault: &Fault);
}
