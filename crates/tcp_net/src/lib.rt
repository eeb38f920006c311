//! TCP on this machine's loopback address, as a net that says where it listens, and whose connections notice that their
//! peers have left.
#![tactic(auto)]

mod clock;
mod connection;
mod ends;
mod line;
mod net;
mod port;
mod remedy;
mod waits;
mod way;

pub use clock::PeerClock;
pub use connection::Connection;
pub use net::LoopbackNet;
pub use port::LoopbackPort;
