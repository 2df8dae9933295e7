// The lines of a replay.
use crate::recorder::TRACK;
use qic24::{Content, Item, decode, find_opening};

// A line for each sound copy on a track with these cells, and one at the end.
pub(crate) fn print_items(rt: &HostRuntime, cells: &[u8]) -> anyhow::Result<()> {
    let mut count = 0u32;
    let mut from = 0;
    while let Some(place) = find_opening(cells, from) {
        if let Ok(item) = decode(TRACK, &cells[place..]) {
            print_item(rt, &item)?;
            count = count.saturating_add(1);
        }
        from = place + 1;
    }
    println!(rt; "replay end {count}")?;
    Ok(())
}

// The line of an item; of a block, with its first byte.
fn print_item(rt: &HostRuntime, item: &Item) -> anyhow::Result<()> {
    let number = item.number();
    match item.content() {
        Content::Block(bytes) => {
            let first = bytes[0];
            println!(rt; "replay block {number} {first:02X}")?;
        }
        Content::Mark => println!(rt; "replay mark {number}")?,
    }
    Ok(())
}
