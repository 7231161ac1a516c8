ghost use Rattle.std.specs.Prelude.{◌≡◌};

use bytes::Bytes;
use std::alloc::Global;
use std::test::Fail;
use update_queue::{Full, Item, UpdateQueue};

fn item(w: u64) -> Item
    ensures { result.w ≡ w }
{
    Item {
        w,
        frame: Bytes::new(),
        job: 0,
        wants: false,
    }
}

/// Pushes an item, where its number is above those of the others.
fn push_newest(queue: &mut UpdateQueue, w: u64) -> Result<(), Full> {
    if queue.as_slice().iter().all(|held| held.w < w) {
        return queue.push(item(w));
    }
    Ok(())
}

/// Pushes so many items, numbered from 1.
fn filled(alloc: Global, count: u64) -> Result<UpdateQueue, Fail> {
    let mut queue = UpdateQueue::new(alloc)?;
    for w in 1..=count {
        push_newest(&mut queue, w)?;
    }
    Ok(queue)
}

#[test]
fn a_queue_holds_1024_and_hands_back_the_next(rt: HostRuntime) -> Result<(), Fail> {
    let mut queue = filled(rt.alloc(), 1024)?;
    assert_eq!(rt; queue.as_slice().len(), 1024);
    assert!(rt; queue.is_full());
    match push_newest(&mut queue, 1025) {
        Ok(()) => assert!(rt; false, "a full queue took an item"),
        Err(refused) => assert_eq!(rt; refused.item.w, 1025),
    }
    Ok(())
}

#[test]
fn synced_items_go_and_later_ones_stay(rt: HostRuntime) -> Result<(), Fail> {
    let mut queue = filled(rt.alloc(), 5)?;
    // Synced up to, looked for behind, how many are left, how many of those lie behind.
    let cases = [
        (0, 2, 5, 3),
        (2, 0, 3, 3),
        (1, 4, 3, 1),
        (4, 9, 1, 0),
        (9, 0, 0, 0),
    ];
    for (synced, behind, left, after) in cases {
        queue.synced(synced);
        assert_eq!(rt; queue.as_slice().len(), left, "synced to {synced}");
        assert_eq!(rt; queue.after(behind).len(), after, "behind {behind}");
    }
    Ok(())
}
