// Cartridges: what one means, the flaw sheet, and the search for the stretch that holds a number.

#![tactic(auto)]

mod beside;
mod calls;
mod cartridge;
mod flaw;
mod limits;
mod refusal;
mod run;
mod sheet;
mod sizes;
mod stretch;
mod table;

pub use beside::read_both;
pub use calls::{check_append, check_read, track_length};
pub use cartridge::{Reading, Recording};
pub use flaw::Flaw;
pub use limits::{MOST_CELLS, MOST_TRACKS, sizes_allowed};
pub use refusal::Refusal;
pub use sheet::FlawSheet;
pub use sizes::{Sizes, track_row};
pub use stretch::{Stretch, stretch_holding};
