ghost use Rattle.std.specs.Prelude.{◌≡◌, ◌≢◌, ◌⊎◌, ℕ, List, [], ◌∷◌, ◌++◌, IfErr, IfOk, OnErr, length, false, true};
ghost use Rattle.hr_history.specs.Held.{values};
ghost use Rattle.hr_script.specs.declared.command.Command.TheVariants.{Undo};
ghost use Rattle.hr_session.specs.Runs.{Carries, Runs, StandsWithin, TakesBack, goes_on, tells_memory};

use crate::line::{Line, Ran, Report};
use crate::stepper::Stepper;
use hr_base::Seq;
use hr_history::History;
use hr_script::{Command, Verb};
use std::alloc::{AllocError, Global};
use std::marker::Model;
use std::mem;

/// A project, and those that `undo` brings back. Contracts see the list of the latter, the last one
/// last, and the project.
#[derive(Drop)]
pub struct Session<P> {
    history: History<P>,
    project: P,
}

impl<P> Model for Session<P> {
    ghost Value = { List P × P };

    ghost view = { λ s. (s.history.0, s.project) };
}

impl<P: Drop> Session<P> {
    /// Nothing can be taken back.
    pub fn new(alloc: Global, project: P) -> Result<Session<P>, AllocError>
        ensures { IfOk result (λ session. session ≡ ([], project)) }
    {
        let history = History::new(alloc)?;
        Ok(Session { history, project })
    }

    /// The project that stands now.
    pub fn project(&self) -> &P
        ensures { result.now ≡ self.now.1 }
    {
        &self.project
    }

    /// How many steps can be taken back.
    pub fn depth(&self) -> usize
        ensures { result ≡ length self.now.0 }
    {
        self.history.len()
    }

    /// Takes the last step back; false where there is none.
    pub fn undo(&mut self) -> bool
        ensures { TakesBack self.old self.new result }
    {
        match self.history.undo() {
            Some(project) => {
                self.project = project;
                true
            }
            None => false,
        }
    }

    /// Carries out a command. Where it is refused, for want of memory too, the session stays.
    pub fn step<W, S: Stepper<P, W>>(
        &mut self,
        alloc: Global,
        stepper: &S,
        command: &Command,
    ) -> Result<Report, W>
        ensures good { IfOk result (λ report. Carries (S.takes stepper.now) (S.refuses stepper.now) self.old command.now self.new (Line.Good report)) }
        ensures refused { IfErr result (λ why. (S.is_memory why ≡ true) ⊎ Carries (S.takes stepper.now) (S.refuses stepper.now) self.old command.now self.new (Line.Refused why)) }
        ensures stays { OnErr result (self.new ≡ self.old) }
    {
        if command.verb() == Verb::Undo {
            return Ok(Report::Undone(self.undo()));
        }
        self.take(alloc, stepper, command)
    }

    /// The same of a command that is not `undo`. All memory is taken before anything changes.
    fn take<W, S: Stepper<P, W>>(
        &mut self,
        alloc: Global,
        stepper: &S,
        command: &Command,
    ) -> Result<Report, W>
        requires { command.now ≢ Undo }
        ensures good { IfOk result (λ report. Carries (S.takes stepper.now) (S.refuses stepper.now) self.old command.now self.new (Line.Good report)) }
        ensures refused { IfErr result (λ why. (S.is_memory why ≡ true) ⊎ Carries (S.takes stepper.now) (S.refuses stepper.now) self.old command.now self.new (Line.Refused why)) }
        ensures stays { OnErr result (self.new ≡ self.old) }
    {
        if let Err(error) = self.history.reserve() {
            return Err(S::memory(error));
        }
        match stepper.take(alloc, &self.project, command) {
            Ok(next) => {
                let old = mem::replace(&mut self.project, next);
                self.history.push(old);
                Ok(Report::Done)
            }
            Err(why) => Err(why),
        }
    }

    /// Carries out commands one after another, up to the first that is refused, or all of them.
    pub fn run_script<W: Drop, S: Stepper<P, W>>(
        &mut self,
        alloc: Global,
        stepper: &S,
        commands: &[Command],
        keep_going: bool,
    ) -> Result<Ran<W>, AllocError>
        ensures ran { IfOk result (λ ran. Runs (S.takes stepper.now) (S.refuses stepper.now) S.is_memory keep_going self.old commands.now self.new ran.lines ran.refused) }
        ensures within { OnErr result (StandsWithin (S.takes stepper.now) (S.refuses stepper.now) S.is_memory keep_going self.old commands.now self.new) }
    {
        let mut lines = Vec::new(alloc);
        for command in commands {
            lines.reserve(1)?;
            let line = self.line(alloc, stepper, command)?;
            let ends = line.ends_run(keep_going);
            lines.push_reserved(line);
            if ends {
                return Ok(Ran {
                    lines: Seq { list: lines },
                    refused: true,
                });
            }
        }
        Ok(Ran {
            lines: Seq { list: lines },
            refused: false,
        })
    }

    /// The line of a command.
    fn line<W: Drop, S: Stepper<P, W>>(
        &mut self,
        alloc: Global,
        stepper: &S,
        command: &Command,
    ) -> Result<Line<W>, AllocError>
        ensures carried { IfOk result (λ line. Carries (S.takes stepper.now) (S.refuses stepper.now) self.old command.now self.new line) }
        ensures memory { IfOk result (λ line. tells_memory S.is_memory line ≡ false) }
        ensures stays { OnErr result (self.new ≡ self.old) }
    {
        match self.step(alloc, stepper, command) {
            Ok(report) => Ok(Line::Good(report)),
            Err(why) => {
                if S::wants_memory(&why) {
                    return Err(AllocError);
                }
                Ok(Line::Refused(why))
            }
        }
    }
}
