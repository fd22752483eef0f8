use block_set::BlockSet;
use pool::Pool;

/// The first free number from the goal on, looked for one by one.
fn plain_search(taken: &[bool; 4096], goal: u32, size: u32) -> Option<u32> {
    let size = size.min(4096);
    let start = if goal < size { goal } else { 0 };
    (start..size)
        .chain(0..start)
        .find(|number| taken.get(*number as usize) == Some(&false))
}

/// Takes up to `left` blocks, each where the plain search finds one, and hands them back, the last first.
/// Now and then a block is released in between. Tells whether the two agreed.
fn fill(pool: &mut Pool, taken: &mut [bool; 4096], goal: u32, size: u32, left: u32) -> bool {
    if left == 0 {
        return true;
    }
    let expected = plain_search(taken, goal, size);
    let Some(token) = pool.take(goal, size) else {
        return expected == None;
    };
    let number = token.number();
    let mut same = expected == Some(number);
    if number < 4096 {
        taken[number as usize] = true;
    }
    if left % 7 == 3 && number < 4096 {
        pool.release(number / 2);
        taken[(number / 2) as usize] = false;
    }
    same &= fill(pool, taken, goal, size, left - 1);
    pool.hand_back(token);
    if number < 4096 {
        taken[number as usize] = false;
    }
    same
}

/// Fills a new pool twice from one goal: the second time all must be as it was at the start.
fn agrees(goal: u32, size: u32) -> bool {
    let mut pool = Pool::new();
    let mut taken = [false; 4096];
    fill(&mut pool, &mut taken, goal, size, 4800) && fill(&mut pool, &mut taken, goal, size, 70)
}

#[test]
fn boards_of_a_few_blocks(rt: HostRuntime) {
    for goal in 0..4 {
        assert!(rt; agrees(goal, 0));
        assert!(rt; agrees(goal, 1));
        assert!(rt; agrees(goal, 2));
    }
}

#[test]
fn boards_of_about_a_word(rt: HostRuntime) {
    for goal in 0..67 {
        assert!(rt; agrees(goal, 63));
        assert!(rt; agrees(goal, 64));
        assert!(rt; agrees(goal, 65));
    }
    assert!(rt; agrees(70000, 65));
}

#[test]
fn full_boards(rt: HostRuntime) {
    assert!(rt; agrees(0, 4096));
    assert!(rt; agrees(4095, 4096));
    assert!(rt; agrees(4096, 4096));
    assert!(rt; agrees(2111, 4095));
    assert!(rt; agrees(64, 5000));
}

/// The numbers of two blocks, as far as there are free ones: the pool keeps the first until the second is taken too.
fn two_from(pool: &mut Pool, goal: u32, size: u32) -> (Option<u32>, Option<u32>) {
    let Some(first) = pool.take(goal, size) else {
        return (None, None);
    };
    let number = first.number();
    let second = pool.take(goal, size).map(|token| {
        let number = token.number();
        pool.hand_back(token);
        number
    });
    pool.hand_back(first);
    (Some(number), second)
}

#[test]
fn the_last_block_then_the_first(rt: HostRuntime) {
    let mut pool = Pool::new();
    assert_eq!(rt; two_from(&mut pool, 4095, 4096), (Some(4095), Some(0)));
    assert_eq!(rt; two_from(&mut pool, 63, 64), (Some(63), Some(0)));
    assert_eq!(rt; two_from(&mut pool, 63, 65), (Some(63), Some(64)));
    assert_eq!(rt; two_from(&mut pool, 0, 1), (Some(0), None));
    assert_eq!(rt; two_from(&mut pool, 0, 0), (None, None));
}

/// Takes `left` blocks, gives those of a set back, and tells the first free one then. Hands back all that it took.
fn free_after(pool: &mut Pool, leaving: &BlockSet, size: u32, left: u32) -> Option<u32> {
    if left == 0 {
        pool.give_back(leaving);
        return two_from(pool, 0, size).0;
    }
    let token = pool.take(0, size)?;
    let told = free_after(pool, leaving, size, left - 1);
    pool.hand_back(token);
    told
}

#[test]
fn one_given_back_at_an_edge(rt: HostRuntime) {
    for edge in [0, 63, 64, 4095, 4096] {
        let mut leaving = BlockSet::new();
        leaving.insert(edge);
        let expected = (edge < 4096).then_some(edge);
        assert_eq!(rt;
            free_after(&mut Pool::new(), &leaving, 4096, 4096),
            expected
        );
    }
}
