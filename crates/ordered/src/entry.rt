//! What a list holds, and what it answers where it is full.
use thiserror::Error;

/// A key and its value.
#[derive(Clone, Copy, Debug, PartialEq, Eq)]
pub struct Entry<K, V> {
    pub key: K,
    pub value: V,
}

/// No place is left for another key.
#[derive(Clone, Copy, Debug, PartialEq, Eq, Error)]
#[error("no place is left for another key")]
pub struct Full;
