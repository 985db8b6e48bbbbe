// The length and the depth of a code, worked out before any of it is made.
ghost use Rattle.std.specs.Prelude.{◌≡◌, ℕ, ◌+◌, ◌*◌, ◌<◌, ◌≤◌};
ghost use Rattle.base.specs.Limits.{most_instructions};
ghost use Rattle.base.specs.Heights.{height};
ghost use Rattle.codegen.specs.Items.{next};
ghost use Rattle.codegen.specs.Measure.{height_after_item, Measures};

use crate::placed::CodeSize;
use ir::item::Item;

// The number of words stacked after the code of an item, if `h` are stacked before it.
fn stack_after(item: Item, h: u32) -> u32
    requires { h < 1000000 }
    ensures { (result ≡ height_after_item item h) × (result ≤ h + 2 * next item 0) }
{
    match item {
        Item::Plain(i) => i.height_after(h) as u32,
        Item::Test | Item::Case(_) => h.saturating_sub(1),
        Item::For(_) | Item::Next(_) => h.saturating_sub(2) + 2,
        _ => h,
    }
}

// How many instructions the code of an item has.
pub(crate) fn size_of(item: Item) -> u32
    ensures { ((p : ℕ) → next item p ≡ p + result) × (result ≤ 65536) }
{
    match item {
        Item::If
        | Item::Then
        | Item::Fi
        | Item::While
        | Item::Do
        | Item::Until
        | Item::Done
        | Item::Arm
        | Item::Esac => 0,
        Item::Case(n) => n as u32 + 1,
        _ => 1,
    }
}

// The figures of the code that the items give, or none if it has more than `limit` instructions.
pub(crate) fn measure(items: &[Item], limit: u32) -> Option<CodeSize>
    requires { limit ≤ most_instructions }
    ensures { Measures items.now limit result }
{
    if limit == 0 {
        return None;
    }
    let mut index: u32 = 0;
    let mut height: u32 = 0;
    let mut deep: u32 = 0;
    for n in items {
        deep = deep.max(height);
        height = stack_after(*n, height);
        index += size_of(*n);
        if index >= limit {
            return None;
        }
    }
    deep = deep.max(height);
    Some(CodeSize {
        count: index as u16 + 1,
        depth: deep as u16,
    })
}
