//! Draws a report: it is read on standard input, and a picture of it is written as SVG, or with
//! the word `text` as lines for a terminal. Epochs stand from left to right, the cut is a wall, and
//! what is lost after it is grey.
#![tactic(auto)]

mod form;
mod picture_input;
mod trouble;

use form::{Form, form_of, words_of};
use picture_input::report_of;
use report_drawing::{Picture, svg, terminal};
use std::alloc::Global;
use std::env;
use std::io::{self, Read, Write};
use std::process::ExitCode;
use std::rt::HostRuntime;
use trouble::{Trouble, status_of};

fn main(rt: HostRuntime) -> ExitCode {
    let alloc = rt.alloc();
    let mut out = io::writer(&rt);
    let drawn = match words_of(alloc, env::args(&rt)) {
        Ok(words) => drawing(alloc, words.as_slice(), &mut rt.reader()),
        Err(trouble) => Err(trouble),
    };
    match written(&mut out, drawn) {
        Ok(()) => ExitCode::SUCCESS,
        Err(trouble) => {
            // Where standard output fails, the exit status alone tells it.
            let _ = writeln!(out, "{trouble}");
            ExitCode::from(status_of(trouble))
        }
    }
}

// The picture that the words ask for of the report that a reader gives.
fn drawing<R: Read>(alloc: Global, words: &[String], reader: &mut R) -> Result<String, Trouble> {
    let form = form_of(words)?;
    let report = report_of(alloc, reader)?;
    let picture = Picture::of_report(alloc, &report)?;
    match form {
        Form::Svg => Ok(svg::drawn(alloc, &picture)?),
        Form::Text => Ok(terminal::drawn(alloc, &picture)?),
    }
}

// Writes a picture, if there is one.
fn written<W: Write>(out: &mut W, drawn: Result<String, Trouble>) -> Result<(), Trouble> {
    let picture = drawn?;
    match out.write_all(picture.as_bytes()) {
        Ok(()) => Ok(()),
        Err(_) => Err(Trouble::Write),
    }
}
