use crate::refactoring::refactor;
use crate::status::Status;
use hr_base::Seq;
use hr_shelf::{MemoryShelf, MemorySink};
use std::alloc::Global;
use std::test::Fail;

const A: &str = "module A where\nf x = x + 1\ng x = f x\n";

const B: &str = "module B (module A, h) where\nimport A hiding (g)\nh y = f (f y)\n";

const MAIN: &str =
    "module Main where\nimport qualified A as Q\nimport B\nmain s = show (Q.f (h (f 3)))\n";

const NEW_A: &str = "module A where\ninc x = x + 1\nk x = inc x\n";

const NEW_B: &str = "module B (module A, h) where\nimport A hiding (k)\nh y = inc (inc y)\n";

const NEW_MAIN: &str =
    "module Main where\nimport qualified A as Q\nimport B\nmain s = show (Q.inc (h (inc 3)))\n";

const SCRIPT: &str = "rename A 2:1 inc\nrename A 3:1 k\n";

const DONE: &str = "1 rename: done\n2 rename: done\n";

fn calls(alloc: Global, failing: &[u32]) -> Result<Seq<u32>, Fail> {
    Ok(Seq {
        list: Vec::from_slice(alloc, failing)?,
    })
}

fn put(alloc: Global, shelf: &mut MemoryShelf, name: &str, text: &str) -> Result<(), Fail> {
    shelf.put(alloc, name, Vec::from_slice(alloc, text.as_bytes())?)?;
    Ok(())
}

/// Whether a file is new (`n`), old (`o`) or neither (`?`).
fn age(shelf: &MemoryShelf, name: &str, old: &str, new: &str) -> &'static str {
    match shelf.bytes(name) {
        Some(bytes) if bytes == old.as_bytes() => "o",
        Some(bytes) if bytes == new.as_bytes() => "n",
        _ => "?",
    }
}

/// The status, the report and the ages of the three files of a run in which these calls of the shelf and of the sink
/// fail.
fn run(
    alloc: Global,
    line: &str,
    shelf_failing: &[u32],
    sink_failing: &[u32],
) -> Result<String, Fail> {
    let mut shelf = MemoryShelf::new(alloc, calls(alloc, shelf_failing)?)?;
    put(alloc, &mut shelf, "s", SCRIPT)?;
    put(alloc, &mut shelf, "A.hs", A)?;
    put(alloc, &mut shelf, "B.hs", B)?;
    put(alloc, &mut shelf, "Main.hs", MAIN)?;
    let mut out = MemorySink::new(alloc, 1000, calls(alloc, sink_failing)?)?;
    let mut words = Vec::new(alloc);
    for word in line.split(' ') {
        words.push(String::from_str(alloc, word)?)?;
    }
    let status = refactor(alloc, words.as_slice(), &mut shelf, &mut out).code();
    let report = str::from_utf8(out.written())?;
    let a = age(&shelf, "A.hs", A, NEW_A);
    let b = age(&shelf, "B.hs", B, NEW_B);
    let c = age(&shelf, "Main.hs", MAIN, NEW_MAIN);
    Ok(format!(in alloc; "{status} {a}{b}{c} {report}")?)
}

#[test]
fn a_run_tells_what_became_of_the_outside(rt: HostRuntime) -> Result<(), Fail> {
    let none: &[u32] = &[];
    let rows = [
        (
            none,
            none,
            "0 nnn ",
            DONE,
            "changed 3\nA.hs\nB.hs\nMain.hs\n",
        ),
        (&[1], none, "5 ooo ", "", "read fault: s\n"),
        (&[3], none, "5 ooo ", "", "read fault: B.hs\n"),
        (
            &[5],
            none,
            "6 ooo ",
            DONE,
            "write fault: A.hs\nrolled back\n",
        ),
        (
            &[6],
            none,
            "6 ooo ",
            DONE,
            "write fault: B.hs\nrolled back\n",
        ),
        (
            &[7],
            none,
            "6 ooo ",
            DONE,
            "write fault: Main.hs\nrolled back\n",
        ),
        (
            &[6, 7],
            none,
            "6 noo ",
            DONE,
            "write fault: B.hs\nnot rolled back: A.hs\n",
        ),
        (
            &[7, 8],
            none,
            "6 ono ",
            DONE,
            "write fault: Main.hs\nnot rolled back: B.hs\n",
        ),
        (
            &[7, 8, 9],
            none,
            "6 nno ",
            DONE,
            "write fault: Main.hs\nnot rolled back: B.hs\nnot rolled back: A.hs\n",
        ),
        (&[5], &[1], "7 ooo ", "", ""),
        (none, &[1], "7 nnn ", "", ""),
    ];
    for (shelf_failing, sink_failing, start, done, end) in rows {
        let answer = run(
            rt.alloc(),
            "s A.hs B.hs Main.hs",
            shelf_failing,
            sink_failing,
        )?;
        let want = format!(in rt.alloc(); "{start}{done}{end}")?;
        assert_eq!(rt; answer.as_str(), want.as_str());
    }
    let dry = run(rt.alloc(), "--dry-run s A.hs B.hs Main.hs", none, none)?;
    let want = format!(in rt.alloc(); "0 ooo {}changed 3\nA.hs\nB.hs\nMain.hs\n", DONE)?;
    assert_eq!(rt; dry.as_str(), want.as_str());
    assert_eq!(rt; Status::Memory.code(), 8);
    Ok(())
}
