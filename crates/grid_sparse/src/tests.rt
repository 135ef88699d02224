use super::*;
use std::test::Fail;

fn crosses_threads<T: Send + Sync>(_: &T) {}

// The places of those that are there, as `next_from` gives them.
fn places(values: &Sparse<u8>, from: u32) -> Option<(u32, u32)> {
    let first = values.next_from(from)?;
    let second = values.next_from(first.checked_add(1)?)?;
    Some((first, second))
}

#[test]
fn those_that_are_there_come_by_rising_place(rt: HostRuntime) -> Result<(), Fail> {
    let mut values = Sparse::new(rt.alloc(), 4_000_000_000);
    crosses_threads(&values);
    values.put(3_000_000_000, 1)?;
    values.put(7, 2)?;
    values.put(7, 3)?;
    let mut pairs = values.iter();
    assert_eq!(rt; pairs.next(), Some((&7, &3)));
    assert_eq!(rt; pairs.next(), Some((&3_000_000_000, &1)));
    assert_eq!(rt; pairs.next(), None);
    assert_eq!(rt; places(&values, 0), Some((7, 3_000_000_000)));
    assert_eq!(rt; values.take(7), Some(3));
    assert_eq!(rt; values.get(7), None);
    assert_eq!(rt; values.next_from(0), Some(3_000_000_000));
    assert_eq!(rt; values.len(), 4_000_000_000);
    Ok(())
}
