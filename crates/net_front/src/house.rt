//! How many threads wait and live.

use crate::helpers::{is_crowded, is_few, is_wanted};
use bells::{Bell, NO_PEER};
use std::sync::Wait;
use std::sync::atomic::Ordering::SeqCst;
use std::sync::atomic::{AtomicBool, AtomicU64};

/// How many milliseconds the host rests at most.
const HOST_MS: u64 = 30_000;

/// How many milliseconds it waits where there is no thread to be had, or no memory for one's client.
const PAUSE_MS: u64 = 100;

/// Counts the threads that wait for a connection, and those that live, for the host that makes them. No contract
/// speaks of it.
///
/// The host counts the rings, looks whether a thread is wanted, and rests behind that count. Whoever makes one wanted
/// rings behind that, as does who ends it all; so the host doesn't miss it (`Bell`).
#[derive(Drop)]
pub struct House {
    waiting: AtomicU64,
    living: AtomicU64,
    lacking: AtomicU64,
    is_over: AtomicBool,
    bell: Bell,
    silence: Bell,
}

impl House {
    /// An empty house.
    pub fn new() -> House {
        House {
            waiting: AtomicU64::new(0),
            living: AtomicU64::new(0),
            lacking: AtomicU64::new(0),
            is_over: AtomicBool::new(false),
            bell: Bell::new(),
            silence: Bell::new(),
        }
    }

    /// No connection will come.
    pub fn is_over(&self) -> bool {
        self.is_over.load(SeqCst)
    }

    /// How many live here.
    pub fn living(&self) -> u64 {
        self.living.load(SeqCst)
    }

    /// Whether a helper is wanted, where at most `open` may live.
    pub fn wants(&self, open: u64) -> bool {
        is_wanted(self.waiting.load(SeqCst), self.living.load(SeqCst), open)
    }

    /// Whether a helper that has served goes.
    pub fn is_crowded(&self) -> bool {
        is_crowded(self.waiting.load(SeqCst))
    }

    /// How many found no memory for a client.
    pub fn lacking(&self) -> u64 {
        self.lacking.load(SeqCst)
    }

    /// One more lives, and waits.
    pub fn enter(&self) {
        self.living.fetch_add(1, SeqCst);
        self.waiting.fetch_add(1, SeqCst);
    }

    /// One that was to come doesn't, since there is no thread for it. The host alone says so.
    pub fn withdraw(&self) {
        self.waiting.fetch_sub(1, SeqCst);
        self.living.fetch_sub(1, SeqCst);
    }

    /// One that waited waits no more.
    pub fn takes(&self) {
        if is_few(self.waiting.fetch_sub(1, SeqCst)) {
            self.bell.ring();
        }
    }

    /// One that served waits again.
    pub fn returns(&self) {
        self.waiting.fetch_add(1, SeqCst);
    }

    /// One that doesn't wait lives no longer.
    pub fn leave(&self) {
        self.living.fetch_sub(1, SeqCst);
        self.bell.ring();
    }

    /// One that waited found no memory for a client, and waits no more.
    pub fn lacks(&self) {
        self.lacking.fetch_add(1, SeqCst);
        self.takes();
    }

    /// No more connections will come.
    pub fn close(&self) {
        self.is_over.store(true, SeqCst);
        self.bell.ring();
    }

    /// The count of rings.
    pub fn count(&self) -> u32 {
        self.bell.count()
    }

    /// Rests until a ring behind this count.
    pub fn rest<R: Wait>(&self, rt: &R, count: u32) {
        self.bell.rest(rt, count, &NO_PEER, HOST_MS);
    }

    /// Waits for a tenth of a second, whoever rings.
    pub fn pause<R: Wait>(&self, rt: &R) {
        self.silence.rest(rt, 0, &NO_PEER, PAUSE_MS);
    }
}
