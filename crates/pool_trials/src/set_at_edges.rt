use block_set::BlockSet;

/// The numbers at the edges of words and of the set; the last is past it.
const EDGES: [u32; 5] = [0, 63, 64, 4095, 4096];

/// Whether a number is in, as the search for absent ones tells.
fn has(set: &BlockSet, number: u32) -> bool {
    number < 4096 && set.first_absent(number, number + 1) == None
}

/// How many numbers are in.
fn count(set: &BlockSet) -> usize {
    (0..4100).filter(|number| has(set, *number)).count()
}

/// The set of all.
fn all() -> BlockSet {
    let mut set = BlockSet::new();
    for number in 0..5000 {
        set.insert(number);
    }
    set
}

#[test]
fn one_number_in(rt: HostRuntime) {
    for edge in EDGES {
        let mut set = BlockSet::new();
        assert_eq!(rt; count(&set), 0);
        set.insert(edge);
        assert_eq!(rt; has(&set, edge), edge < 4096);
        assert_eq!(rt; count(&set), usize::from(edge < 4096));
        set.remove(edge);
        assert_eq!(rt; count(&set), 0);
    }
}

#[test]
fn one_number_out(rt: HostRuntime) {
    for edge in EDGES {
        let mut set = all();
        assert_eq!(rt; set.first_absent(0, u32::MAX), None);
        set.remove(edge);
        let expected = (edge < 4096).then_some(edge);
        assert_eq!(rt; set.first_absent(0, u32::MAX), expected);
        assert_eq!(rt; set.first_absent(edge, u32::MAX), expected);
        assert_eq!(rt; set.first_absent(0, edge), None);
        assert_eq!(rt; set.first_absent(edge.saturating_add(1), 4096), None);
        set.insert(edge);
        assert_eq!(rt; set.first_absent(0, 4096), None);
    }
}

#[test]
fn all_of_another_out(rt: HostRuntime) {
    let mut leaving = BlockSet::new();
    for edge in EDGES {
        leaving.insert(edge);
    }
    let mut set = all();
    set.remove_all(&leaving);
    assert_eq!(rt; count(&set), 4092);
    for edge in EDGES {
        assert!(rt; !has(&set, edge));
    }
    assert_eq!(rt; count(&leaving), 4);
    set.remove_all(&all());
    assert_eq!(rt; count(&set), 0);
}
