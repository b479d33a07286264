//! `FileShelf` over real files: what its calls answer, and what the files and their neighbours are
//! afterwards.
use crate::tests::Act::{Change, Exchange, Link, Mode, Read, Show, Write};
use crate::{FileShelf, Shelf};
use std::alloc::{Allocator, Global};
use std::fs::{Metadata, OpenOptions, Permissions};
use std::io::ErrorKind;
use std::os::unix::fs::{MetadataExt, PermissionsExt, symlink};
use std::rt::Files;
use std::test::Fail;
use std::{env, fs, io, process};

/// What is done in a folder: to a file of this name, with this text or that file.
#[derive(Clone, Copy, Debug)]
enum Act {
    Write(&'static str, &'static str),
    Link(&'static str, &'static str),
    Mode(&'static str, u32),
    Read(&'static str),
    /// A read and a replace.
    Exchange(&'static str, &'static str),
    /// The same, and the file is written by someone else in between.
    Change(&'static str, &'static str),
    Show(&'static str),
}

const WHOLE: [Act; 8] = [
    Write("Main.hs", "a = 1"),
    Write("Main.hs.hare", "left over"),
    Mode("Main.hs", 0o600),
    Exchange("Main.hs", "a = 2"),
    Show("Main.hs"),
    Read("Main.hs.hare"),
    Exchange("Main.hs", "a = 33"),
    Show("Main.hs"),
];

const LINKS: [Act; 8] = [
    Write("Main.hs", "a = 1"),
    Write("other", "kept"),
    Link("Main.hs.hare", "other"),
    Exchange("Main.hs", "a = 2"),
    Show("other"),
    Link("Link.hs", "Main.hs"),
    Exchange("Link.hs", "a = 3"),
    Show("Main.hs"),
];

const STANDS: [Act; 11] = [
    Write("Main.hs", "a = 1"),
    Change("Main.hs", "a = 10"),
    Show("Main.hs"),
    Mode("Main.hs", 0o444),
    Exchange("Main.hs", "a = 2"),
    Show("Main.hs"),
    Mode("Main.hs", 0o644),
    Write("Main.hs.hare", "b = 1"),
    Read("./Main.hs.hare"),
    Exchange("Main.hs", "a = 2"),
    Show("Main.hs.hare"),
];

const UNMOVED: [Act; 4] = [
    Write("Main.hs", "a = 1"),
    Exchange("Main.hs", "a = 2"),
    Show("Main.hs"),
    Read("Main.hs.hare"),
];

/// The path of a name in the folder of this process and one test.
fn at(rt: &HostRuntime, test: &str, name: &str) -> Result<String, Fail> {
    let id = process::id(rt.process());
    let temp = env::temp_dir(rt)?;
    let temp = temp.as_str();
    Ok(format!(in rt.alloc(); "{temp}/hr_shelf_{id}_{test}/{name}")?)
}

/// What the act answers.
fn answer<S: Shelf>(rt: &HostRuntime, shelf: &mut S, test: &str, act: Act) -> Result<String, Fail> {
    match act {
        Write(name, text) => fs::write(rt, at(rt, test, name)?, text)?,
        Link(name, target) => symlink(rt, at(rt, test, target)?, at(rt, test, name)?)?,
        Mode(name, mode) => {
            fs::set_permissions(rt, at(rt, test, name)?, Permissions::from_mode(mode))?
        }
        Read(name) => return read(rt.alloc(), shelf, at(rt, test, name)?.as_str()),
        Exchange(name, text) => return exchange(rt, shelf, at(rt, test, name)?.as_str(), text, ""),
        Change(name, text) => return exchange(rt, shelf, at(rt, test, name)?.as_str(), text, text),
        Show(name) => return show(rt, at(rt, test, name)?.as_str()),
    }
    Ok(String::new(rt.alloc()))
}

fn read<S: Shelf>(alloc: Global, shelf: &mut S, path: &str) -> Result<String, Fail> {
    let error = shelf.read(alloc, path, 10).err();
    Ok(format!(in alloc; "{error:?} ")?)
}

fn exchange<S: Shelf>(
    rt: &HostRuntime,
    shelf: &mut S,
    path: &str,
    text: &str,
    between: &str,
) -> Result<String, Fail> {
    let _old = shelf.read(rt.alloc(), path, 10)?;
    if !between.is_empty() {
        fs::write(rt, path, between)?;
    }
    let answer = shelf.replace(path, Vec::from_slice(rt.alloc(), text.as_bytes())?);
    Ok(format!(in rt.alloc(); "{answer:?} ")?)
}

fn show(rt: &HostRuntime, path: &str) -> Result<String, Fail> {
    let mode = fs::symlink_metadata(rt, path)?.mode() & 0o7777;
    let text = fs::read_to_string(rt, path)?;
    Ok(format!(in rt.alloc(); "{mode:o} {text}, ")?)
}

/// Carries the acts out in a folder of their own, and gives their answers.
fn play<S: Shelf>(
    rt: &HostRuntime,
    shelf: &mut S,
    test: &str,
    acts: &[Act],
) -> Result<String, Fail> {
    let folder = at(rt, test, "")?;
    fs::create_dir_all(rt, folder.as_str())?;
    let mut answers = String::new(rt.alloc());
    for act in acts {
        answers.push_str(answer(rt, shelf, test, *act)?.as_str())?;
    }
    fs::remove_dir_all(rt, folder.as_str())?;
    Ok(answers)
}

#[test]
fn a_file_is_replaced_and_replaced_again(rt: HostRuntime) -> Result<(), Fail> {
    let mut shelf = FileShelf::new(rt.alloc(), &rt);
    let answers = play(&rt, &mut shelf, "whole", &WHOLE)?;
    assert_eq!(rt;
        answers.as_str(),
        "Ok(()) 600 a = 2, Some(Absent) Ok(()) 600 a = 33, "
    );
    Ok(())
}

#[test]
fn links_are_neither_written_through_nor_replaced(rt: HostRuntime) -> Result<(), Fail> {
    let mut shelf = FileShelf::new(rt.alloc(), &rt);
    let answers = play(&rt, &mut shelf, "links", &LINKS)?;
    assert_eq!(rt;
        answers.as_str(),
        "Ok(()) 644 kept, Err(Failed) 644 a = 2, "
    );
    Ok(())
}

#[test]
fn what_must_stand_is_not_replaced(rt: HostRuntime) -> Result<(), Fail> {
    let mut shelf = FileShelf::new(rt.alloc(), &rt);
    let answers = play(&rt, &mut shelf, "stands", &STANDS)?;
    let want = "Err(Failed) 644 a = 10, Err(Failed) 444 a = 10, None Err(Failed) 644 b = 1, ";
    assert_eq!(rt; answers.as_str(), want);
    Ok(())
}

#[test]
fn a_move_that_fails_leaves_the_old_file(rt: HostRuntime) -> Result<(), Fail> {
    let mut shelf = FileShelf::new(rt.alloc(), Unmoved { files: &rt });
    let answers = play(&rt, &mut shelf, "unmoved", &UNMOVED)?;
    assert_eq!(rt; answers.as_str(), "Err(Failed) 644 a = 1, Some(Absent) ");
    Ok(())
}

/// Files that can't be moved.
#[derive(Drop)]
struct Unmoved<R: Files + Drop> {
    files: R,
}

impl<R: Files + Drop> Files for Unmoved<R> {
    type File = R::File;

    type Dir = R::Dir;

    fn open_file(&self, how: &OpenOptions, path: &str) -> io::Result<R::File> {
        self.files.open_file(how, path)
    }

    fn open_dir(&self, path: &str) -> io::Result<R::Dir> {
        self.files.open_dir(path)
    }

    fn metadata(&self, path: &str) -> io::Result<Metadata> {
        self.files.metadata(path)
    }

    fn symlink_metadata(&self, path: &str) -> io::Result<Metadata> {
        self.files.symlink_metadata(path)
    }

    fn copy(&self, from: &str, to: &str) -> io::Result<u64> {
        self.files.copy(from, to)
    }

    fn rename(&self, _from: &str, _to: &str) -> io::Result<()> {
        Err(io::Error::from(ErrorKind::CrossesDevices))
    }

    fn remove_file(&self, path: &str) -> io::Result<()> {
        self.files.remove_file(path)
    }

    fn create_dir(&self, path: &str) -> io::Result<()> {
        self.files.create_dir(path)
    }

    fn remove_dir(&self, path: &str) -> io::Result<()> {
        self.files.remove_dir(path)
    }

    fn remove_dir_all<B: Allocator>(&self, alloc: B, path: &str) -> io::Result<()> {
        self.files.remove_dir_all(alloc, path)
    }
}
