// What comes of a case, by what it is about.
use crate::caller_answer::tell_callers;
use crate::crash_answer::tell_crash;
use crate::device_answer::tell_devices;
use crate::history_answer::tell_text;
use crate::image_answer::tell_image;
use crate::layout_answer::tell_kinds;
use crate::text_answer::tell_texts;
use case_file::{Case, Subject, Unanswered, with_other_lines};
use std::alloc::Global;

/// Answers cases on the histories of a report (a part `report`, where the lines of a part `other
/// lines` stand in the place of some), on what callers have seen (`units`), on images (`clock`), on
/// the words that a crash leaves (`current`), on layouts (`kinds`), and on texts, devices, gates
/// and lists in place.
#[derive(Drop)]
pub struct UnitCases {
    pub alloc: Global,
}

impl Subject for UnitCases {
    fn answer(&self, case: &Case) -> Result<Vec<u8>, Unanswered> {
        let mut answer = String::new(self.alloc);
        tell(&mut answer, self.alloc, case)?;
        Ok(answer.into_bytes())
    }
}

fn tell(answer: &mut String, alloc: Global, case: &Case) -> Result<(), Unanswered> {
    if let Some(text) = case.part("report") {
        tell_report(answer, alloc, case, text)
    } else if case.part("units").is_some() {
        tell_callers(answer, alloc, case)
    } else if case.part("clock").is_some() {
        tell_image(answer, alloc, case)
    } else if case.part("current").is_some() {
        tell_crash(answer, alloc, case)
    } else if case.part("kinds").is_some() {
        tell_kinds(answer, alloc, case)
    } else {
        tell_texts(answer, alloc, case)?;
        tell_devices(answer, alloc, case)
    }
}

fn tell_report(
    answer: &mut String,
    alloc: Global,
    case: &Case,
    text: &[u8],
) -> Result<(), Unanswered> {
    match case.part("other lines") {
        Some(others) => {
            let other = with_other_lines(alloc, text, others)?;
            tell_text(answer, alloc, case, other.as_slice())
        }
        None => tell_text(answer, alloc, case, text),
    }
}
