use super::*;
use grid_ids::{Duplicate, Id, Ids, Same};
use std::test::Fail;

fn crosses_threads<T: Send + Sync>(_: &T) {}

#[test]
fn copies_show_the_same_value(rt: HostRuntime) -> Result<(), Fail> {
    let alloc = rt.alloc();
    let mut ids = Ids::empty(alloc);
    ids.push(Id::new(alloc, "breaker")?)?;
    let shared = Shared::new(alloc, ids)?;
    let copy = shared.copy()?;
    crosses_threads(&copy);
    drop(shared);
    assert_eq!(rt; copy.get()[0].text(), "breaker");
    assert!(rt; copy.same(&Shared::new(alloc, copy.get().copy()?)?));
    assert!(rt; !copy.same(&Shared::new(alloc, Ids::empty(alloc))?));
    Ok(())
}
