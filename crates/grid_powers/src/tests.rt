use super::*;
use grid_ids::{Duplicate, Id};
use std::test::Fail;

// Tells that a value may be used and kept by other threads.
fn crosses_threads<T: Send + Sync>(_: &T) {}

#[test]
fn values_are_put_replaced_and_forgotten(rt: HostRuntime) -> Result<(), Fail> {
    let mut powers = Powers::opening(rt.alloc(), 7, 60);
    crosses_threads(&powers);
    let load = Id::new(rt.alloc(), "LD")?;
    powers.put(load.copy()?, 5)?;
    powers.put(Id::new(rt.alloc(), "G")?, -3)?;
    let copy = powers.copy()?;
    powers.put(load.copy()?, 6)?;
    assert_eq!(rt; powers.value(&load), Some(6));
    assert_eq!(rt; powers.len(), 2);
    assert_eq!(rt; copy.value(&load), Some(5));
    assert_eq!(rt; powers.forget(&load), Some(6));
    assert_eq!(rt; powers.value(&load), None);
    assert_eq!(rt; copy.len(), 2);
    powers.shift(-2, 1);
    assert_eq!(rt; (powers.load(), powers.generation()), (5, 61));
    Ok(())
}
