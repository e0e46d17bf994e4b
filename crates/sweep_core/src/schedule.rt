//! The programs and the items of a sampled schedule.
ghost use Rattle.std.specs.Prelude.{◌≡◌, ◌<◌, All, IfOk};
ghost use Rattle.sweep_core.specs.Sweep.{item_of, items_from, items_of, sampled_programs, seed_of};

use book_core::{Command, Item, Sequence};
use rand_core::SeedableRng;
use rand_core::utils::NextWord;
use rand_pcg::Pcg32;
use std::alloc::{AllocError, Global};

// The programs of the three actors, as a machine takes them.
pub(crate) fn make_programs(alloc: Global) -> Result<Sequence<Sequence<Command>>, AllocError>
    ensures { IfOk result (λ programs. programs ≡ sampled_programs) }
{
    let first = vec![in alloc;
        Command::Push { value: 1 },
        Command::Grow { n: 3, value: 2 },
        Command::AtLeast { to: 9, value: 3 },
    ]?;
    let second = vec![in alloc;
        Command::Fail {
            n: 4,
            value: 5,
            at: 2
        },
        Command::Read { place: 0 },
        Command::Push { value: 6 },
    ]?;
    let third = vec![in alloc;
        Command::AtLeast { to: 5, value: 7 },
        Command::Size,
        Command::Grow { n: 2, value: 8 },
    ]?;
    let all = vec![in alloc;
        Sequence::from_vec(first),
        Sequence::from_vec(second),
        Sequence::from_vec(third),
    ]?;
    Ok(Sequence::from_vec(all))
}

fn item_of(word: u32) -> Item
    ensures { result ≡ item_of word }
{
    Item {
        actor: word % 3,
        memory: word / 3 % 16 != 0,
    }
}

// The items of a generator's next words.
fn items_from(alloc: Global, mut words: Pcg32, len: u32) -> Result<Vec<Item>, AllocError>
    ensures { IfOk result (λ items. items.items ≡ items_from len words) }
{
    let mut items = Vec::with_capacity(alloc, len as usize)?;
    for _more in 0..len {
        items.push(item_of(words.next_word()))?;
    }
    Ok(items)
}

// The schedule of a seed.
pub(crate) fn items_of(alloc: Global, seed: u64, len: u32) -> Result<Vec<Item>, AllocError>
    ensures { IfOk result (λ items. items.items ≡ items_of seed len) }
{
    items_from(alloc, Pcg32::seed_from_u64(seed), len)
}

/// Returns the items of one schedule of a sweep, by its number from 0 on.
///
/// They are those that `sweep` plays, with the same seed and length, in a sweep of more than `number` schedules.
pub fn schedule_items(
    alloc: Global,
    seed: u64,
    number: u32,
    len: u32,
) -> Result<Vec<Item>, AllocError>
    ensures items { IfOk result (λ items. items.items ≡ items_of (seed_of seed number) len) }
    ensures actors { IfOk result (λ items. All (λ item. item.actor < 3) items.items) }
{
    items_of(alloc, seed.wrapping_add(u64::from(number)), len)
}
