ghost use Rattle.hr_rules.specs.PositionLaws.{BehindGoesOn, BehindIsPosAt, PositionsGoOn};

/// The position behind a text in two parts is found part by part, if no character and no newline is
/// cut in two: a law about the definitions, which no call needs to run.
pub fn behind_goes_on()
    ensures { BehindGoesOn }
{}

/// The positions of items in two parts are found part by part: a law as well.
pub fn positions_go_on()
    ensures { PositionsGoOn }
{}

/// The position behind a part of a text is that of the place where the text is cut: a law as well.
pub fn behind_is_pos_at()
    ensures { BehindIsPosAt }
{}
