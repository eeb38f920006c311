//! What ends all open watches at once.

use bells::Bell;
use std::alloc::Global;
use std::sync::atomic::AtomicU64;
use std::sync::atomic::Ordering::SeqCst;
use std::sync::{Arc, Mutex, Wait};

/// How often all open watches were ended, and the bells of the connections, which are rung for that. No contract speaks
/// of it.
///
/// No watch misses it. Its clock counts the rings of its bell, then reads the count here, and the rest behind that turn
/// is one behind the rings that were counted. The count here rises first, and then the bell is rung. So the clock reads
/// the count that rose, or the ring ends the rest. A connection enters its bell before its first watch begins.
#[derive(Drop)]
pub struct Disconnects {
    count: AtomicU64,
    bells: Mutex<Bells>,
}

impl Disconnects {
    /// No watch was ended, and no connection is there.
    pub fn new(alloc: Global) -> Disconnects {
        Disconnects {
            count: AtomicU64::new(0),
            bells: Mutex::new(Bells {
                all: Vec::new(alloc),
                free: Vec::new(alloc),
            }),
        }
    }

    /// How often all watches were ended.
    pub fn count(&self) -> u64 {
        self.count.load(SeqCst)
    }

    /// Ends all watches that are open. Whoever rings for the watches has to hear of it.
    pub fn raise(&self) {
        self.count.fetch_add(1, SeqCst);
    }

    /// Enters the bell of a connection, and answers its place. A connection that has none, or for which there is no
    /// memory, is not rung: its watch ends once it looks by itself.
    pub fn enter<R: Wait>(&self, rt: &R, bell: Option<&Arc<Bell, Global>>) -> Option<usize> {
        let bell = Arc::try_clone(bell?).ok()?;
        self.bells.lock(rt).enter(bell)
    }

    /// Takes a bell out again.
    pub fn leave<R: Wait>(&self, rt: &R, place: Option<usize>) {
        if let Some(place) = place {
            self.bells.lock(rt).leave(place);
        }
    }

    /// Rings all bells.
    pub fn ring<R: Wait>(&self, rt: &R) {
        self.bells.lock(rt).ring();
    }
}

// The bells of connections, each at a place that stays its own.
#[derive(Drop)]
struct Bells {
    all: Vec<Option<Arc<Bell, Global>>>,
    // The places that are free.
    free: Vec<usize>,
}

impl Bells {
    fn enter(&mut self, bell: Arc<Bell, Global>) -> Option<usize> {
        let place = match self.free.pop() {
            Some(place) => place,
            None => {
                let place = self.all.len();
                self.all.push(None).ok()?;
                place
            }
        };
        *self.all.get_mut(place)? = Some(bell);
        Some(place)
    }

    // Where there is no memory to note that the place is free, it stays empty.
    fn leave(&mut self, place: usize) {
        if let Some(bell) = self.all.get_mut(place) {
            *bell = None;
            let _ = self.free.push(place);
        }
    }

    fn ring(&self) {
        for bell in self.all.iter() {
            if let Some(bell) = bell {
                bell.ring();
            }
        }
    }
}
