//! Nodes come and go at the front, in the middle and at the end of lists of both families.
ghost use Rattle.std.specs.Prelude.{◌≡◌, ◌<◌, ◌≤◌, length, OnOk};
ghost use Rattle.lx_cap_nodes.specs.Words.{IsInUse};

use lx_cap_nodes::{Family, ListName, NodePool};
use lx_words::Memory;
use std::alloc::Global;
use std::test::Fail;

/// Makes two lists of each family, and room for three nodes.
fn make_ready(pool: &mut NodePool<u32>) -> Result<(), Memory>
    requires places { length pool.old.places ≡ 0 }
    requires owners { length pool.old.owners ≡ 0 }
    ensures places { OnOk result (length pool.new.places ≡ 2) }
    ensures owners { OnOk result (length pool.new.owners ≡ 2) }
    ensures spare { OnOk result (3 ≤ pool.new.spare) }
{
    pool.add_list(Family::Place)?;
    pool.add_list(Family::Place)?;
    pool.add_list(Family::Owner)?;
    pool.add_list(Family::Owner)?;
    pool.reserve(3)?;
    Ok(())
}

/// A node is first in both its lists, and gets another value.
fn newest_is_written(pool: &mut NodePool<u32>)
    requires places { length pool.old.places ≡ 2 }
    requires owners { length pool.old.owners ≡ 2 }
    requires spare { 3 ≤ pool.old.spare }
    ensures places { length pool.new.places ≡ 2 }
    ensures owners { length pool.new.owners ≡ 2 }
{
    pool.link(0, 1, 10);
    pool.link(0, 0, 11);
    let node = pool.link(1, 1, 12);
    *pool.value_mut(node) = 22;
}

/// Of three nodes in the same lists the newest goes, or the middle one.
fn one_of_three_goes(pool: &mut NodePool<u32>, newest: bool) -> u32
    requires places { length pool.old.places ≡ 2 }
    requires owners { length pool.old.owners ≡ 2 }
    requires spare { 3 ≤ pool.old.spare }
    ensures places { length pool.new.places ≡ 2 }
    ensures owners { length pool.new.owners ≡ 2 }
{
    pool.link(0, 1, 10);
    let middle = pool.link(0, 1, 11);
    let first = pool.link(0, 1, 12);
    if newest {
        pool.unlink(first)
    } else {
        pool.unlink(middle)
    }
}

/// Of two nodes in the same lists the oldest goes.
fn oldest_goes(pool: &mut NodePool<u32>) -> u32
    requires places { length pool.old.places ≡ 2 }
    requires owners { length pool.old.owners ≡ 2 }
    requires spare { 3 ≤ pool.old.spare }
    ensures places { length pool.new.places ≡ 2 }
    ensures owners { length pool.new.owners ≡ 2 }
    ensures spare { 2 ≤ pool.new.spare }
{
    let node = pool.link(0, 1, 10);
    pool.link(0, 1, 11);
    pool.unlink(node)
}

/// The oldest node goes, and its room serves a node of the other lists; nothing is given where there is none.
fn room_serves_again(pool: &mut NodePool<u32>) -> Option<u32>
    requires places { length pool.old.places ≡ 2 }
    requires owners { length pool.old.owners ≡ 2 }
    requires spare { 3 ≤ pool.old.spare }
    ensures places { length pool.new.places ≡ 2 }
    ensures owners { length pool.new.owners ≡ 2 }
{
    let value = oldest_goes(pool);
    if pool.spare() == 0 {
        return None;
    }
    pool.link(1, 0, 13);
    Some(value)
}

/// A node goes that is the first of its place and the last of its owner.
fn first_and_last_goes(pool: &mut NodePool<u32>) -> u32
    requires places { length pool.old.places ≡ 2 }
    requires owners { length pool.old.owners ≡ 2 }
    requires spare { 3 ≤ pool.old.spare }
    ensures places { length pool.new.places ≡ 2 }
    ensures owners { length pool.new.owners ≡ 2 }
{
    pool.link(0, 0, 10);
    let node = pool.link(0, 1, 11);
    pool.link(1, 1, 12);
    pool.unlink(node)
}

/// What becomes of the nodes of a case.
#[derive(Clone, Copy)]
enum Story {
    NewestIsWritten,
    NewestGoes,
    MiddleGoes,
    OldestGoes,
    RoomServesAgain,
    FirstAndLastGoes,
}

/// Makes the nodes of a story. Gives the value of the one that goes.
fn goes(pool: &mut NodePool<u32>, story: Story) -> Option<u32>
    requires places { length pool.old.places ≡ 2 }
    requires owners { length pool.old.owners ≡ 2 }
    requires spare { 3 ≤ pool.old.spare }
    ensures places { length pool.new.places ≡ 2 }
    ensures owners { length pool.new.owners ≡ 2 }
{
    match story {
        Story::NewestIsWritten => {
            newest_is_written(pool);
            None
        }
        Story::NewestGoes => Some(one_of_three_goes(pool, true)),
        Story::MiddleGoes => Some(one_of_three_goes(pool, false)),
        Story::OldestGoes => Some(oldest_goes(pool)),
        Story::RoomServesAgain => room_serves_again(pool),
        Story::FirstAndLastGoes => Some(first_and_last_goes(pool)),
    }
}

/// Whether these are the values of a list, from its first node on.
fn has_values(pool: &NodePool<u32>, list: ListName, wanted: &[u32]) -> bool
    requires { IsInUse list pool.now }
{
    let family = match list {
        ListName::Place(_) => Family::Place,
        ListName::Owner(_) => Family::Owner,
    };
    let mut node = pool.first(list);
    for want in wanted {
        match node {
            Some(n) => {
                if pool.value(n) != want {
                    return false;
                }
                node = pool.after(n, family);
            }
            None => return false,
        }
    }
    node.is_none()
}

/// Whether these are the values of one of two lists of a family.
fn is_listed(pool: &NodePool<u32>, list: ListName, wanted: &[u32]) -> bool
    requires places { length pool.now.places ≡ 2 }
    requires owners { length pool.now.owners ≡ 2 }
{
    match list {
        ListName::Place(l) if l < 2 => has_values(pool, ListName::Place(l), wanted),
        ListName::Owner(l) if l < 2 => has_values(pool, ListName::Owner(l), wanted),
        _ => false,
    }
}

/// The number of the first list that has other values.
fn wrong_list(pool: &NodePool<u32>, lists: &[(ListName, &[u32])]) -> Option<usize>
    requires places { length pool.now.places ≡ 2 }
    requires owners { length pool.now.owners ≡ 2 }
{
    for (number, (list, wanted)) in lists.iter().enumerate() {
        if !is_listed(pool, *list, wanted) {
            return Some(number);
        }
    }
    None
}

/// A story, the value of the node that goes, and lists with their values.
struct Case {
    story: Story,
    gone: Option<u32>,
    lists: &'static [(ListName, &'static [u32])],
}

static CASES: [Case; 6] = [
    Case {
        story: Story::NewestIsWritten,
        gone: None,
        lists: &[
            (ListName::Place(0), &[11, 10]),
            (ListName::Place(1), &[22]),
            (ListName::Owner(0), &[11]),
            (ListName::Owner(1), &[22, 10]),
        ],
    },
    Case {
        story: Story::NewestGoes,
        gone: Some(12),
        lists: &[
            (ListName::Place(0), &[11, 10]),
            (ListName::Owner(1), &[11, 10]),
        ],
    },
    Case {
        story: Story::MiddleGoes,
        gone: Some(11),
        lists: &[
            (ListName::Place(0), &[12, 10]),
            (ListName::Owner(1), &[12, 10]),
        ],
    },
    Case {
        story: Story::OldestGoes,
        gone: Some(10),
        lists: &[(ListName::Place(0), &[11]), (ListName::Owner(1), &[11])],
    },
    Case {
        story: Story::RoomServesAgain,
        gone: Some(10),
        lists: &[(ListName::Place(1), &[13]), (ListName::Owner(0), &[13])],
    },
    Case {
        story: Story::FirstAndLastGoes,
        gone: Some(11),
        lists: &[(ListName::Place(0), &[10]), (ListName::Owner(1), &[12])],
    },
];

/// Whether a story gives its value on a pool without lists, and the number of the first list that has other values.
fn found(pool: &mut NodePool<u32>, case: &Case) -> Result<(bool, Option<usize>), Memory>
    requires places { length pool.old.places ≡ 0 }
    requires owners { length pool.old.owners ≡ 0 }
{
    make_ready(pool)?;
    let gives = goes(pool, case.story) == case.gone;
    Ok((gives, wrong_list(pool, case.lists)))
}

fn found_anew(alloc: Global, case: &Case) -> Result<(bool, Option<usize>), Memory> {
    let mut pool = NodePool::new(alloc);
    let found = found(&mut pool, case);
    drop(pool);
    found
}

#[test]
fn nodes_come_and_go(rt: HostRuntime) -> Result<(), Fail> {
    for (number, case) in CASES.iter().enumerate() {
        let (gives, wrong) = found_anew(rt.alloc(), case)?;
        assert!(rt; gives, "case {number}");
        if let Some(list) = wrong {
            panic!(rt; "case {number}, list {list}");
        }
    }
    Ok(())
}
