//! A worked row: the longest way to a function without calls decides.
use naga_oil_redirect::order::{by_level, levels_of};
use std::test::Fail;

#[test]
fn longest_ways_count(rt: HostRuntime) -> Result<(), Fail> {
    let alloc = rt.alloc();
    let calls = vec![in alloc; vec![in alloc; 1, 2]?, vec![in alloc; 2]?, vec![in alloc]?]?;
    let levels = levels_of(&calls, alloc)?;
    assert_eq!(rt; levels.as_slice(), [Some(2), Some(1), Some(0)].as_slice());
    assert_eq!(rt; by_level(&levels, alloc)?.as_slice(), [2, 1, 0].as_slice());
    Ok(())
}
