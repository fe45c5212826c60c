//! Spaces of selectors: there is memory for one, and its calls as an owner of selectors sees them.

use cap_space::{Cap, CapSpace};
use std::process::Abort;
use trade_base::{DsId, Selector, SessionId};

/// Checks that each capability is inserted under the selector next to it, if there is a place.
fn check_inserts(rt: &impl Abort, space: &mut CapSpace, rows: &[(Cap, u32)]) {
    for (cap, selector) in rows {
        assert!(rt; !space.is_full());
        assert!(rt; space.insert(*cap) == Selector(*selector), "{selector}");
    }
}

#[test]
fn buffer_is_taken_by_its_dataspace(rt: HostRuntime) {
    let mut space = CapSpace::boot(rt.alloc(), 8).expect(&rt, "memory for eight places");
    let (session, other) = (Selector(1), Selector(9));
    check_inserts(
        &rt,
        &mut space,
        &[
            (
                Cap::Session {
                    server: 0,
                    session: SessionId(7),
                },
                1,
            ),
            (Cap::Dataspace(DsId(5)), 2),
            (
                Cap::Buffer {
                    space: DsId(6),
                    session,
                },
                3,
            ),
            (
                Cap::Buffer {
                    space: DsId(4),
                    session: other,
                },
                4,
            ),
            (Cap::RpcObject, 5),
        ],
    );
    check_taken(&rt, &mut space);
    check_inserts(&rt, &mut space, &[(Cap::RpcObject, 1)]);
}

/// Checks whether a buffer is taken by each dataspace in order, and under which selector.
fn check_buffers(rt: &impl Abort, space: &mut CapSpace, rows: &[(DsId, Option<Selector>)]) {
    for (ds, selector) in rows {
        assert!(rt; space.take_buffer(*ds) == *selector);
    }
}

/// Checks that a buffer is taken by its dataspace alone, and any other capability by its selector.
fn check_taken(rt: &impl Abort, space: &mut CapSpace) {
    check_buffers(
        rt,
        space,
        &[(DsId(0), None), (DsId(5), None), (DsId(7), None)],
    );
    assert!(rt; space.take_dataspace(3).is_none() && !space.take_rpc_object(3));
    assert!(rt; space.take_session(3).is_none());
    check_buffers(
        rt,
        space,
        &[
            (DsId(4), Some(Selector(4))),
            (DsId(4), None),
            (DsId(6), Some(Selector(3))),
        ],
    );
    assert!(rt; space.take_session(1) == Some((0, SessionId(7))));
    check_removed(rt, space);
}

/// Checks that any capability under a selector is removed, and none if the selector isn't in use.
fn check_removed(rt: &impl Abort, space: &mut CapSpace) {
    for selector in [0, 1, 3, u64::MAX] {
        assert!(rt; space.remove(selector).is_none());
    }
    assert!(rt; space.remove(2) == Some(Cap::Dataspace(DsId(5))));
    assert!(rt; space.remove(2).is_none() && space.get(2).is_none());
}
