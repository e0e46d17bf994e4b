//! The text of a schedule of a sweep, as a script.
ghost use Rattle.std.specs.Prelude.{◌≡◌, ◌<◌, ◌++◌, All, IfOk, OnOk};
ghost use Rattle.std.specs.List.{flat_map};
ghost use Rattle.script_core.specs.Spelling.{item_text};
ghost use Rattle.cvec.specs.Schedule.{letters, schedule_text};

use book_core::Item;
use std::alloc::{AllocError, Global};
use sweep_core::schedule_items;

const LETTERS: [u8; 3] = *b"abc";

// What comes before the items. It is proved to be of the programs that a sweep plays.
const FRONT: &[u8] = b"\
limit 16
actor a push 1, grow 3 2, atleast 9 3
actor b fail 4 5 2, read 0, push 6
actor c atleast 5 7, size, grow 2 8
steps";

fn push_item(text: &mut Vec<u8>, item: &Item) -> Result<(), AllocError>
    requires { item.now.actor < 3 }
    ensures { OnOk result (text.new.items ≡ text.old.items ++ item_text letters item.now) }
{
    text.push(b' ')?;
    text.push(LETTERS[item.actor as usize])?;
    if !item.memory {
        text.push(b'!')?;
    }
    Ok(())
}

fn push_items(text: &mut Vec<u8>, items: &[Item]) -> Result<(), AllocError>
    requires { All (λ item. item.actor < 3) items.now }
    ensures { OnOk result
        (text.new.items ≡ text.old.items ++ flat_map (item_text letters) items.now) }
{
    for item in items {
        push_item(text, item)?;
    }
    Ok(())
}

// The text of schedule `number` of a sweep.
pub(crate) fn make_schedule_text(
    alloc: Global,
    seed: u64,
    number: u32,
    len: u32,
) -> Result<Vec<u8>, AllocError>
    ensures { IfOk result (λ text. text.items ≡ schedule_text seed number len) }
{
    let items = schedule_items(alloc, seed, number, len)?;
    let mut text = Vec::from_slice(alloc, FRONT)?;
    push_items(&mut text, &items)?;
    text.push(b'\n')?;
    Ok(text)
}
