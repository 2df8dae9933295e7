// The lines of the format.
use qic24::{Content, Item, LONGEST, Preamble, decode, encode, find_opening};
use sampling::hash_of;

// The length and the hash of an item's copy.
pub(crate) fn print_copy(
    rt: &HostRuntime,
    preamble: Preamble,
    track: u8,
    number: u32,
    content: Content,
) -> anyhow::Result<()> {
    match Item::new(number, content) {
        Some(item) => {
            let mut cells = [0; LONGEST];
            let size = encode(preamble, track, &item, &mut cells);
            let hash = hash_of(&cells[..size]);
            println!(rt; "copy {size} {hash:016x}")?;
        }
        None => println!(rt; "no item")?,
    }
    Ok(())
}

// The item that so many cells are the body of, or why there is none.
pub(crate) fn print_body(rt: &HostRuntime, track: u8, cells: &[u8]) -> anyhow::Result<()> {
    match decode(track, cells) {
        Ok(item) => print_item(rt, &item)?,
        Err(fault) => println!(rt; "{fault}")?,
    }
    Ok(())
}

fn print_item(rt: &HostRuntime, item: &Item) -> anyhow::Result<()> {
    let number = item.number();
    match item.content() {
        Content::Block(bytes) => {
            let hash = hash_of(bytes);
            println!(rt; "block {number} {hash:016x}")?;
        }
        Content::Mark => println!(rt; "mark {number}")?,
    }
    Ok(())
}

// The first opening from a place on.
pub(crate) fn print_opening(rt: &HostRuntime, from: u32, cells: &[u8]) -> anyhow::Result<()> {
    match find_opening(cells, from as usize) {
        Some(place) => println!(rt; "opening {place}")?,
        None => println!(rt; "no opening")?,
    }
    Ok(())
}
