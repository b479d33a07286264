//! Rows of projects: the texts of modules, and why they are refused, or `ok`. The texts are those of the files a.hs,
//! b.hs and so on.
#![tactic(auto)]

use hr_base::Text;
use hr_check::check;
use hr_report::project_refusal;
use hr_rows::answer_all;
use std::alloc::{AllocError, Global};
use std::io;

fn main(rt: HostRuntime) -> io::Result<()> {
    answer_all(&rt, rt.alloc(), answer)
}

fn answer(alloc: Global, fields: &[Vec<u8>]) -> Result<String, AllocError> {
    let mut texts = Vec::new(alloc);
    let mut files = Vec::new(alloc);
    for (field, name) in fields.iter().zip(b'a'..=b'z') {
        texts.push(Text::from_slice(alloc, field.as_slice())?)?;
        files.push(format!(in alloc; "{}.hs", char::from(name))?)?;
    }
    match check(alloc, texts.as_slice()) {
        Ok(_) => String::from_str(alloc, "ok"),
        Err(error) => {
            let shown = project_refusal(alloc, files.as_slice(), &error)?;
            match str::from_utf8(shown.as_slice()) {
                Ok(text) => String::from_str(alloc, text),
                Err(_) => String::from_str(alloc, "not UTF-8"),
            }
        }
    }
}
