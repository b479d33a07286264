ghost use Rattle.std.specs.Prelude.{◌≡◌, IfOk, length, true};
ghost use Rattle.hr_check.specs.Projects.{bindings_of, modules_of, texts_of};
ghost use Rattle.hr_rename_target.specs.Renamed.{AreRenamed};
ghost use Rattle.hr_finish.specs.Compared.{IsFinished};
ghost use Rattle.hr_finish.specs.Renamed.{IsRename};

use crate::finishing::{Step, finish};
use hr_base::{Pos, Text};
use hr_check::Project;
use hr_rename::{Renaming, Scene, plan_rename};
use hr_rename_target::{Renamed, are_renamed};
use hr_why::Why;
use std::alloc::{AllocError, Global};

/// Renames what begins at the position of the module, wherever it occurs. A target that isn't that, which no edits of a
/// rename make, writes nothing: it is answered by want of memory.
pub fn rename(
    alloc: Global,
    project: &Project,
    module: &str,
    pos: Pos,
    new: &str,
) -> Result<Step, Why>
    ensures finished { IfOk result (IsFinished project.now) }
    ensures renamed { IfOk result (λ step. IsRename project.now step.project «module».now pos new.now) }
{
    let module = Text::from_slice(alloc, module.as_bytes())?;
    let new = Text::from_slice(alloc, new.as_bytes())?;
    let scene = scene_of(project);
    let Renaming { binder, edits, map } = plan_rename(alloc, &scene, &module, pos, &new)?;
    let step = finish(alloc, project, edits.as_slice(), map)?;
    let renamed = Renamed {
        binder: &binder,
        new: &new,
    };
    if is_renamed(alloc, renamed, project, &step.project).map_err(Why::Memory)? {
        return Ok(step);
    }
    Err(Why::Memory(AllocError))
}

fn scene_of(project: &Project) -> Scene<'_>
    ensures files { result.files ≡ length (texts_of project.now) }
    ensures modules { result.modules.now ≡ modules_of project.now }
    ensures bindings { result.bindings.now.modules ≡ bindings_of project.now }
{
    Scene {
        modules: project.modules(),
        files: project.texts().len(),
        bindings: project.bindings(),
    }
}

/// Whether the new project is the old one with what has the binder renamed.
fn is_renamed(
    alloc: Global,
    renamed: Renamed,
    old: &Project,
    new: &Project,
) -> Result<bool, AllocError>
    ensures { IfOk result (λ is. is ≡ true → AreRenamed renamed.entry.binder.now renamed.entry.new.now (modules_of old.now) (modules_of new.now) (bindings_of old.now) (bindings_of new.now)) }
{
    are_renamed(alloc, renamed, scene_of(old), scene_of(new))
}
