// The forward pass gives each item its index.
ghost use Rattle.std.specs.Prelude.{◌≡◌, ◌+◌, ◌<◌, ◌≤◌, [], length, reverse};
ghost use Rattle.base.specs.Limits.{most_items};
ghost use Rattle.codegen.specs.Items.{starts, placements as placements_of, ends};

use crate::measure::size_of;
use crate::placed::Placed;
use base::limits::MOST_ITEMS;
use base::reserved::Reserved;
use ir::item::Item;

// Keeps the starts of the open loops: `item`, which stands at `p`, opens a loop, closes one, or does neither.
fn follow(item: Item, p: u16, loops: &mut Reserved<u16, MOST_ITEMS>)
    requires { length loops.old < most_items }
    ensures tops { reverse loops.new ≡ starts item p (reverse loops.old) }
    ensures len { length loops.new ≤ length loops.old + 1 }
{
    match item {
        Item::While | Item::Do | Item::For(_) => {
            let _ = loops.push(p);
        }
        Item::Loop | Item::Done | Item::Next(_) => {
            let _ = loops.pop();
        }
        _ => {}
    }
}

// Fills `out` with each item and its index. What both lists held before is lost.
pub(crate) fn place_all(
    items: &[Item],
    starts: &mut Reserved<u16, MOST_ITEMS>,
    out: &mut Reserved<Placed, MOST_ITEMS>,
)
    requires fits { ends items.now 0 < 65536 }
    requires room { length items.now ≤ most_items }
    ensures { out.new ≡ placements_of items.now 0 [] }
{
    starts.clear();
    out.clear();
    let mut index = 0;
    for n in items {
        let after = index + size_of(*n) as u16;
        let _ = out.push(Placed {
            item: *n,
            index,
            after,
            start: starts.peek(0).unwrap_or(0),
        });
        follow(*n, index, starts);
        index = after;
    }
}
