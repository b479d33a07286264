ghost use Rattle.std.specs.Prelude.{◌≡◌, not};
ghost use Rattle.hr_session.specs.Runs.{goes_on};

use hr_base::Seq;

/// What became of a command that was not refused: its step was done, or `undo` took one back, if
/// there was one.
#[derive(Clone, Copy, Debug, PartialEq, Eq)]
pub enum Report {
    Done,
    Undone(bool),
}

/// What became of a command.
#[derive(Debug, Drop)]
pub enum Line<W> {
    Good(Report),
    Refused(W),
}

/// The lines of a run, and whether it ended at a refused step.
#[derive(Debug, Drop)]
pub struct Ran<W> {
    pub lines: Seq<Line<W>>,
    pub refused: bool,
}

impl<W> Line<W> {
    /// Whether a run ends behind the line.
    pub(crate) fn ends_run(&self, keep_going: bool) -> bool
        ensures { result ≡ not (goes_on keep_going self.now) }
    {
        match self {
            Line::Good(_) => false,
            Line::Refused(_) => !keep_going,
        }
    }
}
