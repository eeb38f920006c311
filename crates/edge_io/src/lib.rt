//! The outside as the product sees it: where bytes come from, where they go, the clock, and the net.
//!
//! Each is a trait with two kinds of ends behind it. The ends in memory tell in their contracts exactly what goes
//! through them, so that whole sessions can be proved and tested from bytes to bytes. The real ends (standard input and
//! output, TCP, the system clock) tell no content; they count their faults, and an answer [`Failed`] comes only where a
//! count rose.
#![tactic(auto)]

mod clock;
mod fault;
mod held;
mod memory;
mod memory_net;
mod net;
mod real;
mod sink;
mod source;
mod step_clock;

pub use clock::{Clock, Reading};
pub use fault::Failed;
pub use memory::{MemSink, MemSource};
pub use memory_net::{MemListener, MemNet};
pub use net::{Listener, Net};
pub use real::{ReadEnd, SystemClock, WriteEnd};
pub use sink::Sink;
pub use source::Source;
pub use step_clock::StepClock;
