ghost use Rattle.hr_rules.specs.Lexing.{OneLexing, LexingsJoin};
ghost use Rattle.hr_rules.specs.Lexemes.{OneReading, ReadingsJoin, RulesKeepApart};
ghost use Rattle.hr_rules.specs.Stops.{OneStop, StopsHaveNone, StoppedHasNone};

/// A text has one list of items at most, whatever lexemes, blanks and comments are, as long as
/// these keep apart: a law about the definitions, which no call needs to run.
pub fn one_lexing()
    ensures { OneLexing }
{}

/// The items of a text and what is behind them, joined, are the text: a law as well.
pub fn lexings_join()
    ensures { LexingsJoin }
{}

/// The whole rules keep lexemes, blanks and comments apart.
pub fn rules_keep_apart()
    ensures { RulesKeepApart }
{}

/// So a text has one list of items at most under the whole rules.
pub fn one_reading()
    ensures { OneReading }
{}

/// And these, joined, are the text.
pub fn readings_join()
    ensures { ReadingsJoin }
{}

/// A text that can't be lexed any further has no items, whatever lexemes, blanks and comments are.
pub fn stops_have_none()
    ensures { StopsHaveNone }
{}

/// And that is so at one place at most.
pub fn one_stop()
    ensures { OneStop }
{}

/// A text at some place of which the whole rules stop has no items.
pub fn stopped_has_none()
    ensures { StoppedHasNone }
{}
