// The agreement of list and tape, until a public call that makes deposits names it.
ghost use Rattle.std.specs.Prelude.{◌≡◌, [], length};
ghost use Rattle.deck.specs.Calls.{kept_list};
ghost use Rattle.deck.specs.Agreement.{ListAndTape};
ghost use Rattle.deposit.specs.NewCartridge.{ReplaysWhatWasKept};

// How many items are kept before any call is made.
pub fn kept_at_first() -> u32
    ensures value { result ≡ length (kept_list []) }
    ensures agreement { ListAndTape }
    ensures unspoiled { ReplaysWhatWasKept }
{
    0
}
