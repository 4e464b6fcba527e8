//! The log as one that the driver of least sets works off.

use crate::entries::EntryLog;
use least_set::{Found, Key, Log};
use std::alloc::AllocError;

impl<K: Key + Copy> Log<(K, u32)> for EntryLog<K> {
    ghost keys = { λ log. log.keys };

    fn len(&self) -> usize {
        EntryLog::len(self)
    }

    fn get(&self, index: usize) -> Found<'_, (K, u32)> {
        match EntryLog::get(self, index) {
            Some((key, block)) => Found::Made((*key, block)),
            None => unreachable!(),
        }
    }

    fn insert(&mut self, member: (K, u32)) -> Result<bool, AllocError> {
        let (key, block) = member;
        EntryLog::insert(self, key, block)
    }
}
