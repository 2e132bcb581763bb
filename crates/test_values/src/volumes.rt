//! Rows of volumes, and where messages go.

use record_volumes::{RowFault, Target, judge_row, target_of};

/// The missing volumes of a row; none where it is whole, or for want of memory.
fn gaps(rt: &HostRuntime, begun: u32, found: &[u32]) -> Vec<u32> {
    match judge_row(rt.alloc(), begun, found) {
        Err(RowFault::Missing(missing)) => missing,
        Ok(_) | Err(RowFault::NoMemory) => Vec::new(rt.alloc()),
    }
}

#[test]
fn a_missing_volume_is_told(rt: HostRuntime) {
    assert!(rt; gaps(&rt, 3, &[1, 2, 3]).is_empty());
    assert_eq!(rt; gaps(&rt, 2, &[5, 1, 3]).as_slice(), [2, 4].as_slice());
    // the last one is gone, which was begun
    assert_eq!(rt; gaps(&rt, 3, &[2, 1]).as_slice(), [3].as_slice());
}

#[test]
fn the_next_volume_begins_over_the_size(rt: HostRuntime) {
    assert!(rt; matches!(target_of(3, 32, 32), Target::Last(3)));
    assert!(rt; matches!(target_of(3, 33, 32), Target::Next(4)));
    assert!(rt; matches!(target_of(9_999, 33, 32), Target::Last(9_999)));
}
