//! What two threads push comes out in order.

use crate::relays::relay_two;
use std::test::*;

/// Two threads push 100 reports each into a queue of capacity 1, popped by whoever has the lock:
/// the numbers of each come out from 1 to 100, in order.
#[test]
fn numbers_come_in_order(rt: HostRuntime) -> Result<(), Fail> {
    let got = relay_two(&rt, rt.alloc(), 1, 100)?;
    assert!(rt; got.is_some());
    let Some(got) = got else {
        return Ok(());
    };
    assert_eq!(rt; got.len(), 200);
    let mut last = [0u64; 2];
    for posted in got.iter() {
        let exec = posted.exec as usize;
        assert!(rt; exec < 2);
        if exec < 2 {
            assert_eq!(rt; posted.number, last[exec].wrapping_add(1));
            assert_eq!(rt; posted.report, posted.number);
            last[exec] = posted.number;
        }
    }
    assert_eq!(rt; last[0], 100);
    assert_eq!(rt; last[1], 100);
    Ok(())
}
