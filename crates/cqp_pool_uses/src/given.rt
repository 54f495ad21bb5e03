//! What pops have given, counted number by number by all threads together. Contracts see nothing
//! of it.

use std::alloc::{AllocError, Global};
use std::sync::atomic::{AtomicU64, Ordering};

/// How often each number below some bound was given, and how often any other was.
#[derive(Drop)]
pub struct Given {
    times: Vec<AtomicU64>,
    others: AtomicU64,
}

impl Given {
    /// Nothing was given yet. The numbers from `bound` on aren't told apart.
    pub fn new(alloc: Global, bound: u32) -> Result<Given, AllocError> {
        let mut times = Vec::new(alloc);
        for _ in 0..bound {
            times.push(AtomicU64::new(0))?;
        }
        Ok(Given {
            times,
            others: AtomicU64::new(0),
        })
    }

    /// Counts an item by its number.
    pub fn add(&self, item: u32) {
        let count = self.times.get(item as usize).unwrap_or(&self.others);
        count.fetch_add(1, Ordering::SeqCst);
    }

    /// Whether each number was given exactly so often, and no other was given.
    pub fn is_each(&self, times: u64) -> bool {
        for count in &self.times {
            if count.load(Ordering::SeqCst) != times {
                return false;
            }
        }
        self.others.load(Ordering::SeqCst) == 0
    }
}
