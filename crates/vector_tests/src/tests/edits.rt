// Edits of a list of numbers, and what each returns. A test is a table of both.
ghost use Rattle.seg_core.specs.Segment.{IsLimit};

use super::parts::{append, has_members, member, pop, replace, room};
use grow_core::Parts;
use seg_core::Layout;
use std::alloc::{AllocError, Global};

// A change of a list of numbers, or a look at it.
#[derive(Clone, Copy)]
pub(super) enum Edit {
    Room(u64),
    Append(Option<u64>),
    Pop,
    Get(u64),
    Replace(u64, Option<u64>),
    Cut,
    Sizes,
    // Tests whether the members are these, in order.
    Members(&'static [Option<u64>]),
}

// What an edit returns. One whose condition does not hold is not made.
#[derive(Clone, Copy, PartialEq, Eq)]
pub(super) enum Found {
    Done,
    NotMade,
    NoMemory,
    Member(Option<u64>),
    Capacity(u64),
    // The length, the limit and the capacity.
    Sizes(u64, u64, u64),
}

// The number of the first edit that does not return what it should.
pub(super) fn first_wrong_edit(parts: &mut Parts<u64>, edits: &[(Edit, Found)]) -> Option<u64> {
    let mut number = 0u64;
    for (edit, found) in edits {
        if make(parts, *edit) != *found {
            return Some(number);
        }
        number = number.wrapping_add(1);
    }
    None
}

// The number of the first edit of a new list that does not return what it should.
pub(super) fn first_wrong_of_new(alloc: Global, limit: u64, edits: &[(Edit, Found)]) -> Option<u64>
    requires { IsLimit limit }
{
    let mut parts = Parts::new(alloc, limit);
    let wrong = first_wrong_edit(&mut parts, edits);
    drop(parts);
    wrong
}

fn make(parts: &mut Parts<u64>, edit: Edit) -> Found {
    match edit {
        Edit::Room(n) => match room(parts, n) {
            Ok(true) => Found::Capacity(parts.capacity()),
            Ok(false) => Found::NotMade,
            Err(AllocError) => Found::NoMemory,
        },
        Edit::Append(member) => done(append(parts, member)),
        Edit::Pop => member_found(pop(parts)),
        Edit::Get(place) => member_found(member(parts, place)),
        Edit::Replace(place, member) => member_found(replace(parts, place, member)),
        Edit::Cut => {
            parts.cut();
            sizes(parts)
        }
        Edit::Sizes => sizes(parts),
        Edit::Members(members) => done(has_members(parts, members)),
    }
}

fn done(is_made: bool) -> Found {
    if is_made { Found::Done } else { Found::NotMade }
}

fn member_found(member: Option<Option<u64>>) -> Found {
    match member {
        Some(member) => Found::Member(member),
        None => Found::NotMade,
    }
}

fn sizes(parts: &Parts<u64>) -> Found {
    Found::Sizes(parts.len(), parts.limit(), parts.capacity())
}

// A new list after edits, if each of them returns what it should. Its first segment has 2^f places.
pub(super) fn edited(
    alloc: Global,
    f: u32,
    limit: u64,
    edits: &[(Edit, Found)],
) -> Option<Parts<u64>>
    requires { IsLimit limit }
{
    let mut parts = Parts::new_in(alloc, Layout::new(f)?, limit);
    if first_wrong_edit(&mut parts, edits) == None {
        Some(parts)
    } else {
        drop(parts);
        None
    }
}

// Tests whether there is a list, and each edit of it returns what it should.
pub(super) fn ends_as(parts: Option<Parts<u64>>, edits: &[(Edit, Found)]) -> bool {
    match parts {
        Some(mut parts) => {
            let is_right = first_wrong_edit(&mut parts, edits) == None;
            drop(parts);
            is_right
        }
        None => false,
    }
}
