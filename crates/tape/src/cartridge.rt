// What a cartridge is: a half that can only be read, and one on top of it that can also be recorded.
ghost use Rattle.std.specs.Prelude.{◌≡◌, ℕ, ◌≤◌, List, map, length, take, drop, MatchResult};
ghost use Rattle.std.specs.List.{AllByRecursion};
ghost use Rattle.tape.specs.Calls.{length_answer, read_answer, append_answer};
ghost use Rattle.tape.specs.Tape.{Tape, most_tracks, most_cells, track, Cell, cell, Run, run, Longer};

use crate::refusal::Refusal;

// A cartridge that can be read, with the whole meaning of a cartridge.
pub trait Reading {
    // The cells of each track.
    ghost cells: { Self → Tape };

    // The capacity of every track.
    ghost room: { Self → ℕ };

    // What an append may lead to: which cells the medium spoils is said here, and nothing else about it is assumed.
    ghost takes: { Self → Run → Self → Type 0 };

    fn tracks(&self) -> u8
        ensures { result ≡ length (cells self.now) };

    fn length(&self, at: u8) -> Result<u32, Refusal>
        ensures { result ≡ length_answer (cells self.now) at };

    // Copies cells from a place on, a byte 0 or 1 for each.
    // Track and place stay two parameters: as one struct, every call of this trait would change and read no plainer.
    fn read(&self, at: u8, place: u32, out: &mut [u8]) -> Result<(), Refusal>
        ensures answer { result ≡ read_answer (cells self.now) at place (length out.old) }
        ensures buffer { MatchResult result (λ _. out.new ≡ take (length out.old) (drop place (track (cells self.now) at))) (λ _. out.new ≡ out.old) };

    ghost few: { (s : Self) → length (cells s) ≤ most_tracks };

    ghost small: { (s : Self) → room s ≤ most_cells };

    ghost empty: { (s : Self) → length (cells s) ≡ 0 → room s ≡ 0 };

    ghost inside: { (s : Self) (t : ℕ) → length (track (cells s) t) ≤ room s };

    ghost binary: { (s : Self) (t : ℕ) → AllByRecursion Cell (track (cells s) t) };

    ghost grows: { (s : Self) (r : Run) (e : Self) → takes s r e → Longer r (cells s) (cells e) };

    ghost keeps: { (s : Self) (r : Run) (e : Self) → takes s r e → room e ≡ room s };
}

// A cartridge that can be recorded too.
pub trait Recording: Reading {
    fn capacity(&self) -> u32
        ensures { result ≡ Self.Reading.room self.now };

    // Lengthens a track by as many cells as are sent; a byte other than 0 is a one.
    fn append(&mut self, at: u8, sent: &[u8]) -> Result<(), Refusal>
        ensures answer { result ≡ append_answer (Self.Reading.cells self.old) (Self.Reading.room self.old) at (length sent.now) }
        ensures tape { MatchResult result (λ _. Self.Reading.takes self.old (run at (map cell sent.now)) self.new) (λ _. self.new ≡ self.old) };
}
