// Why a survey is declined.
ghost use Rattle.std.specs.Prelude.{◌≡◌};
ghost use Rattle.shelf.specs.declared.refusal.SurveyRefusal.TheVariants.{Unlocated};

use replay::UnlocatedNumber;

#[derive(Clone, Copy, PartialEq, Eq, Debug)]
pub enum SurveyRefusal {
    // A number is not located; where a later one stands, and the last unsound opening before it.
    Unlocated(UnlocatedNumber),
    // The cartridge has more files than rows were handed in.
    TooFewRows,
}

// Written by hand, since clauses name the variant that `?` makes.
impl From<UnlocatedNumber> for SurveyRefusal {
    ghost from_gives = { λ w r. r ≡ Unlocated w };

    fn from(unlocated: UnlocatedNumber) -> SurveyRefusal {
        SurveyRefusal::Unlocated(unlocated)
    }
}
