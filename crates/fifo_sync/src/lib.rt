//! The predefined channels with a queue or a lock: the fifo, the mutex and the semaphore (IEEE 1666-2011, 6.23, 6.27 and 6.29).
#![tactic(auto)]

mod fifo;
mod locks;

pub use fifo::{Fifo, FifoChange, Full};
pub use locks::{Mutex, Semaphore};
