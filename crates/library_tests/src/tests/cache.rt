//! Each allocating call once with ample memory.

use super::key;
use counter_cache::Cache;
use flow_table::{Lost, LostRows};
use std::alloc::{AllocError, Global};
use std::test::Fail;

const LOST: Lost = Lost {
    packets: 1,
    bytes: 60,
    age: 5,
    hard: 30,
};

/// Whether a row is found from when it is put in to when it is taken out.
fn takes_row(alloc: Global) -> Result<bool, AllocError> {
    let key = key();
    let mut cache = Cache::new(alloc)?;
    cache.reserve(1)?;
    cache.put(key, LOST);
    let is_found = cache.get(&key).is_some();
    cache.remove(&key);
    Ok(is_found && cache.get(&key).is_none())
}

#[test]
fn takes_rows(rt: HostRuntime) -> Result<(), Fail> {
    assert!(rt; takes_row(rt.alloc())?);
    Ok(())
}
