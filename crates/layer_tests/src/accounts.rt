//! Accounts: the largest limits move from account to account.

use quota_core::Books;
use trade_base::{Caps, Ram};

/// The amounts of an account as plain numbers.
fn plain(amounts: (Ram, Caps)) -> (u64, u32) {
    (amounts.0.0, amounts.1.0)
}

#[test]
#[tactic(auto, using(own_model::proofs::NatMapLemmas::natmaps))]
fn limits_at_their_largest_move(rt: HostRuntime) {
    let mut books = Books::boot(rt.alloc(), Ram(u64::MAX), Caps(u32::MAX), 3).expect(&rt, "memory");
    let root = books.root();
    let one = books
        .open(root, Ram(1), Caps(1))
        .expect(&rt, "the root has it");
    let other = books
        .open(root, Ram(5), Caps(5))
        .expect(&rt, "the root has it");
    assert!(rt;
        books
            .raise(root, one, Ram(u64::MAX - 6), Caps(u32::MAX - 6))
            .is_ok()
    );
    assert!(rt;
        books
            .shift(one, other, Ram(u64::MAX - 5), Caps(u32::MAX - 5))
            .is_ok()
    );
    assert!(rt; plain(books.limits(one)) == (0, 0));
    assert!(rt; plain(books.limits(other)) == (u64::MAX, u32::MAX));
    assert!(rt; plain(books.limits(root)) == (0, 0));
}
