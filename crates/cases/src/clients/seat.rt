//! A client that anything may be asked of, since it knows whether it watches.

ghost use Rattle.std.specs.Prelude.{◌≤◌, IsSome, IsTrue};

use client_api::{Begun, Client, Got, ListNo, Listed, Took};
use kube_meta::Memory;
use list_rules::{GetAsk, ListAsk};
use up_store::{OpNo, Operate, WriteAsk, WriteNo, Written};
use watch_rules::WatchAsk;

/// A client, and whether it watches.
#[derive(Drop)]
pub struct Seat<C: Client> {
    client: C,
    is_watching: bool,
    ghost watches: { IsTrue is_watching → IsSome (C.facts client).watching },
}

impl<C: Client> Seat<C> {
    /// A client that doesn't watch.
    pub fn new(client: C) -> Seat<C> {
        Seat {
            client,
            is_watching: false,
        }
    }

    /// Asks for a write.
    pub fn write(&mut self, ask: &WriteAsk) -> Result<Written, WriteNo> {
        self.client.write(ask)
    }

    /// One object.
    pub fn get(&mut self, ask: &GetAsk) -> Result<Got, ListNo> {
        self.client.get(ask)
    }

    /// The objects of a selection.
    pub fn list(&mut self, ask: &ListAsk) -> Result<Listed, ListNo> {
        self.client.list(ask)
    }

    /// Does an operation.
    pub fn operate(&mut self, ask: Operate) -> Result<u64, OpNo> {
        self.client.operate(ask)
    }

    /// Begins a watch. One that stands ends first.
    pub fn watch(&mut self, ask: &WatchAsk) -> Result<Begun, ListNo> {
        self.client.end_watch();
        self.is_watching = false;
        let begun = self.client.watch(ask)?;
        self.is_watching = true;
        Ok(begun)
    }

    /// One turn of the watch, where there is one.
    pub fn take(&mut self, max: usize) -> Result<Option<Took>, Memory>
        requires { 1 ≤ max }
    {
        if !self.is_watching {
            return Ok(None);
        }
        let took = self.client.take(max)?;
        if let Took::Lost { .. } = took {
            self.is_watching = false;
        }
        Ok(Some(took))
    }

    /// Ends the watch, if there is one.
    pub fn end_watch(&mut self) {
        self.client.end_watch();
        self.is_watching = false;
    }
}
