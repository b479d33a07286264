use crate::{Request, request_of};
use std::alloc::Global;
use std::test::Fail;

/// The request of the words of a line, or `bad`: `d` and `k` for the flags, then the script and the files.
fn shown(alloc: Global, line: &str) -> Result<String, Fail> {
    let mut words = Vec::new(alloc);
    for word in line.split_whitespace() {
        words.push(String::from_str(alloc, word)?)?;
    }
    let Some(request) = request_of(alloc, words.as_slice())? else {
        return Ok(String::from_str(alloc, "bad")?);
    };
    let Request {
        script,
        files,
        dry_run,
        keep_going,
    } = request;
    let mut shown = format!(in alloc; "{dry_run} {keep_going} {script}")?;
    for file in files.iter() {
        shown.push(' ')?;
        shown.push_str(file.as_str())?;
    }
    Ok(shown)
}

#[test]
fn words_are_a_script_and_files(rt: HostRuntime) -> Result<(), Fail> {
    let rows = [
        ("", "bad"),
        ("s", "bad"),
        ("s A.hs", "false false s A.hs"),
        ("s A.hs B.hs", "false false s A.hs B.hs"),
        ("--dry-run s A.hs", "true false s A.hs"),
        (
            "s --keep-going A.hs --dry-run B.hs",
            "true true s A.hs B.hs",
        ),
        ("s A.hs --keep-going", "false true s A.hs"),
        ("--keep-going s", "bad"),
        ("--dry-run --dry-run s A.hs", "bad"),
        ("- A.hs", "false false - A.hs"),
        ("-- --dry-run A.hs", "false false --dry-run A.hs"),
        ("--help", "bad"),
        ("-h s A.hs", "bad"),
        ("--version s A.hs", "bad"),
        ("--generate 1", "bad"),
        ("--generate=1", "bad"),
        ("--dry-run=1 s A.hs", "bad"),
        ("--dry s A.hs", "bad"),
        (
            "rename Main 1:1 g in Main.hs",
            "false false rename Main 1:1 g in Main.hs",
        ),
    ];
    for (line, want) in rows {
        let answer = shown(rt.alloc(), line)?;
        assert_eq!(rt; answer.as_str(), want, "{line}");
    }
    Ok(())
}
