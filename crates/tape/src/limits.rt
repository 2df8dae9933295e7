// The sizes that a store can be made with.
ghost use Rattle.std.specs.Prelude.{◌≡◌};
ghost use Rattle.tape.specs.Stores.{within_limits};

pub const MOST_TRACKS: usize = 9;

pub const MOST_CELLS: u32 = 100_000_000;

pub fn sizes_allowed(tracks: u8, capacity: u32) -> bool
    ensures { result ≡ within_limits tracks capacity }
{
    (1..=MOST_TRACKS).contains(&usize::from(tracks)) && (1..=MOST_CELLS).contains(&capacity)
}
