//! The modules' texts.
ghost use Rattle.std.specs.Prelude.{◌≡◌, ◌≤◌, ◌-◌, ◌++◌, ◌<◌, IfOk, OnOk, length, replicate};
ghost use Rattle.std.specs.String.{string_bytes};
ghost use Rattle.hr_gen.specs.Project as spec;

use hr_base::{Seq, Text};
use std::alloc::{AllocError, Global};

/// The texts of the modules in turn, and that of Main.
pub(crate) fn texts(
    alloc: Global,
    seed: u32,
    modules: u32,
    size: u32,
) -> Result<Seq<Text>, AllocError>
    requires modules { (1 ≤ modules) × (modules ≤ 100) }
    requires size { size ≤ 50 }
    ensures { IfOk result (λ list. list ≡ spec.texts seed modules size) }
{
    let mut list = Vec::new(alloc);
    for k in 0..modules {
        list.push(module_text(alloc, seed, size, k)?)?;
    }
    list.push(main_text(alloc, modules - 1, size)?)?;
    Ok(Seq { list })
}

/// The text of the module of number k.
fn module_text(alloc: Global, seed: u32, size: u32, k: u32) -> Result<Text, AllocError>
    requires module { k < 100 }
    requires size { size ≤ 50 }
    ensures { IfOk result (λ text. text ≡ spec.module_text seed size k) }
{
    let mut text = Vec::new(alloc);
    add(
        &mut text,
        format!(in alloc; "module M{k} where\n")?.as_str(),
    )?;
    add(&mut text, import_line(alloc, k)?.as_str())?;
    add(&mut text, first_function(alloc, seed, size, k)?.as_str())?;
    for h in 0..size {
        add_function(alloc, &mut text, seed, k, h)?;
    }
    Text::from_vec(text)
}

/// The second line: a comment in M0, else the import of the module before.
fn import_line(alloc: Global, k: u32) -> Result<String, AllocError>
    ensures { IfOk result (λ line. string_bytes line ≡ spec.import_line k) }
{
    if k == 0 {
        return String::from_str(alloc, "-- first\n");
    }
    let j = k - 1;
    format!(in alloc; "import M{j}\n")
}

/// The third line, which calls the last function of the module before.
fn first_function(alloc: Global, seed: u32, size: u32, k: u32) -> Result<String, AllocError>
    requires { k < 100 }
    ensures { IfOk result (λ line. string_bytes line ≡ spec.first_function seed size k) }
{
    let digit = digit(seed, k, 0);
    if k == 0 {
        return format!(in alloc; "f0_0 x = x + {digit}\n");
    }
    let j = k - 1;
    format!(in alloc; "f{k}_0 x = f{j}_{size} x + {digit}\n")
}

/// The digit in the function of number i of the module of number k.
fn digit(seed: u32, k: u32, i: u32) -> u64
    requires { (k < 100) × (i ≤ 50) }
    ensures { result ≡ spec.digit seed k i }
{
    (u64::from(seed) + u64::from(k) + u64::from(i)) % 10
}

/// Puts the function behind the one of number h at the end.
fn add_function(
    alloc: Global,
    text: &mut Vec<u8>,
    seed: u32,
    k: u32,
    h: u32,
) -> Result<(), AllocError>
    requires { (k < 100) × (h < 50) }
    ensures { OnOk result (text.new.items ≡ text.old.items ++ spec.function seed k h) }
{
    let i = h + 1;
    let digit = digit(seed, k, i);
    let before = format!(in alloc; "f{k}_{i} x = case x of ")?;
    add(text, before.as_str())?;
    add(text, format!(in alloc; "0 -> {digit}\n")?.as_str())?;
    add_blanks(text, before.len())?;
    add(text, format!(in alloc; "y -> f{k}_{h} (y - 1)\n")?.as_str())
}

fn add(text: &mut Vec<u8>, piece: &str) -> Result<(), AllocError>
    ensures { OnOk result (text.new.items ≡ text.old.items ++ piece.now) }
{
    text.extend_from_slice(piece.as_bytes())
}

fn add_blanks(text: &mut Vec<u8>, count: usize) -> Result<(), AllocError>
    ensures { OnOk result (text.new.items ≡ text.old.items ++ replicate count 32) }
{
    for _ in 0..count {
        text.push(b' ')?;
    }
    Ok(())
}

/// The text of Main, which calls the last function of the last module.
fn main_text(alloc: Global, last: u32, size: u32) -> Result<Text, AllocError>
    ensures { IfOk result (λ text. text ≡ spec.main_text last size) }
{
    let text = format!(in alloc;
        "module Main where\nimport M{last}\nmain s = show (f{last}_{size} 3)\n"
    )?;
    Text::from_slice(alloc, text.as_bytes())
}
