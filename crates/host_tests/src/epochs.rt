//! Receipts that reach the store in other orders than their calls, over histories that begin again.
use fb_host::{Identity, ReceiptStore};
use fb_jobs::{Key, Kind};
use fb_shared::{Receipt, Shared};
use fb_text::Name;
use fb_wire::bench::Limits;
use std::alloc::Global;
use std::process::Abort;
use std::sync::Wait;
use std::test::Fail;

/// The calls of an epoch.
const SPAN: u64 = 3;

/// What the store gets, each time after how many calls the history had begun last, and the numbers of the receipts; after which call it begins at last, and
/// what is left of them then.
#[derive(Clone, Copy)]
struct Play {
    handed_in: &'static [(u64, &'static [u64])],
    before: u64,
    left: &'static [u64],
}

const PLAYS: &[Play] = &[
    Play {
        handed_in: &[(0, &[1, 2]), (6, &[5, 6, 7]), (6, &[8])],
        before: 6,
        left: &[7, 8],
    },
    Play {
        handed_in: &[(3, &[4, 5]), (3, &[2, 3])],
        before: 3,
        left: &[4, 5],
    },
    Play {
        handed_in: &[(3, &[2, 3, 4]), (3, &[1]), (3, &[5, 6])],
        before: 3,
        left: &[4, 5, 6],
    },
    Play {
        handed_in: &[(3, &[4]), (3, &[5, 6])],
        before: 6,
        left: &[],
    },
];

// The receipts of this number of calls, of which each third begins the history again.
fn receipts_of<R: Wait>(rt: &R, alloc: Global, calls: u64) -> Result<Vec<Receipt>, Fail> {
    let limits = Limits::new(4, SPAN).ok_or("limits")?;
    let (shared, mut seats) = Shared::rolling(
        alloc,
        limits,
        u64::MAX,
        1,
        Identity { high: 0, low: 0 },
    )?;
    let mut seat = seats.pop().ok_or("no seat")?;
    let key = Key {
        kind: Kind::Faults,
        unit: Name::read("A")?,
    };
    let mut receipts = Vec::new(alloc);
    for _ in 0..calls {
        receipts.push(shared.ask(rt, &mut seat, key)?)?;
    }
    Ok(receipts)
}

// Those of the receipts with these numbers.
fn taken(receipts: Vec<Receipt>, numbers: &[u64]) -> Vec<Receipt> {
    let mut receipts = receipts;
    receipts.retain(|receipt| numbers.contains(&receipt.number()));
    receipts
}

fn compare<R: Wait + Abort>(rt: &R, alloc: Global, play: Play) -> Result<(), Fail> {
    let store = ReceiptStore::new(alloc);
    for (start, numbers) in play.handed_in {
        let mut receipts = taken(receipts_of(rt, alloc, 9)?, numbers);
        store.add(rt, *start, &mut receipts);
        assert!(rt; receipts.is_empty());
    }
    let mut left = Vec::new(alloc);
    for receipt in store.into_receipts(play.before) {
        left.push(receipt.number())?;
    }
    left.sort()?;
    assert_eq!(rt; left.as_slice(), play.left);
    Ok(())
}

#[test]
fn receipts_of_the_newest_epoch_stay(rt: HostRuntime) -> Result<(), Fail> {
    for play in PLAYS {
        compare(&rt, rt.alloc(), *play)?;
    }
    Ok(())
}
