// What the words of the command line ask for.
ghost use Rattle.std.specs.Prelude.{◌≡◌, ◌↔◌, Ok, map, string_bytes, drop, IfOk, IfErr};
ghost use Rattle.std.specs.Vec.Iter.{into_iter_items};
ghost use Rattle.report_picture.specs.Form.{AreSvg, AreText};

use crate::trouble::Trouble;
use std::alloc::{AllocError, Global};
use std::env::Args;
use std::io;

/// How a picture is drawn.
#[derive(Clone, Copy)]
pub(crate) enum Form {
    /// As SVG.
    Svg,
    /// As lines for a terminal.
    Text,
}

/// The form that words ask for: SVG where there is none, lines by the word `text`.
pub(crate) fn form_of(words: &[String]) -> Result<Form, Trouble>
    ensures svg { (result ≡ Ok Form.Svg) ↔ AreSvg (map string_bytes words.now) }
    ensures text { (result ≡ Ok Form.Text) ↔ AreText (map string_bytes words.now) }
    ensures bad { IfErr result (λ trouble. trouble ≡ Trouble.Words) }
{
    match words {
        [] => Ok(Form::Svg),
        [word] if word.as_str() == "text" => Ok(Form::Text),
        _ => Err(Trouble::Words),
    }
}

/// The words after the program's name.
pub(crate) fn words_of(alloc: Global, all: io::Result<Args>) -> Result<Vec<String>, Trouble> {
    match all {
        Ok(args) => Ok(behind_first(alloc, args)?),
        Err(fault) => Err(trouble_of_fault(&fault)),
    }
}

// The words after the first.
fn behind_first(alloc: Global, args: Args) -> Result<Vec<String>, AllocError>
    ensures { IfOk result (λ words. words.items ≡ drop 1 (into_iter_items args)) }
{
    let mut rest = args;
    let _ = rest.next();
    let mut words = Vec::new(alloc);
    for word in rest {
        words.push(word)?;
    }
    Ok(words)
}

// Memory ran out, or a word isn't UTF-8.
fn trouble_of_fault(fault: &io::Error) -> Trouble {
    match fault.kind() {
        io::ErrorKind::OutOfMemory => Trouble::Memory,
        _ => Trouble::Words,
    }
}
