use c104_crossbar::Group;

/// Link 3 continues the group of link 2, and link 4 begins one.
#[test]
fn groups(rt: HostRuntime) {
    assert!(rt; Group::of(8, 2) == Group { first: 2, last: 3 });
    assert!(rt; Group::of(8, 4) == Group { first: 4, last: 4 });
}
