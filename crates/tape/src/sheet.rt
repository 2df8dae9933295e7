// The flaw sheet: a cartridge over any cartridge, to which it sends a zero wherever a flaw covers the cell.
use crate::table::FlawTable;

mod cartridge;
mod sheets;

#[derive(Drop)]
pub struct FlawSheet<C> {
    inner: C,
    table: FlawTable,
}
