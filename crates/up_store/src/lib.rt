//! What clients of an API server's store ask for and are answered: writes, transactions of several
//! writes at one revision, and operations on the log. And the store itself.
#![tactic(auto)]

mod changes;
mod committing;
mod crossing;
mod door;
mod hearing;
mod kept;
mod operations;
mod parts;
mod past;
mod reader;
mod reading;
mod revisions;
mod scripted;
mod store;
mod tables;
mod transacting;
mod transactions;
mod writes;
mod writing;

pub use door::StoreDoor;
pub use hearing::HearNo;
pub use operations::{OpNo, Operate};
pub use past::{OldHistory, OldState};
pub use reader::ReadDoor;
pub use scripted::ScriptedStore;
pub use store::Store;
pub use transacting::share_all;
pub use transactions::{Transaction, TxNo, TxWriteNo, revisions_of_are_unique};
pub use writes::{WriteAsk, WriteNo, Written};
pub use writing::share;
