// How large the trees are of which a large grammar has millions, so that they don't grow unseen.
use rn_pattern::{Pattern, SmallString};
use rn_syntax::{Named, Nc, Pat};
use std::mem::size_of;

#[test]
fn patterns_are_small(rt: HostRuntime) {
    assert!(rt; size_of::<Pattern>() <= 32, "a resolved pattern has grown");
    assert!(rt; size_of::<SmallString>() <= 24, "a text in place has grown");
    assert!(rt;
        size_of::<Pat<'static>>() <= 32,
        "a pattern as it is written has grown"
    );
    assert!(rt;
        size_of::<Nc<'static>>() <= 24,
        "a name class as it is written has grown"
    );
    assert!(rt;
        size_of::<Named<'static>>() <= 56,
        "a name class and its pattern have grown"
    );
}
