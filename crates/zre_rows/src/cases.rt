//! A case file, section by section. A section begins with a row, or with the line that names its subject.

use crate::case_file::CaseFile;
use crate::opening::open;
use crate::report::Place;
use crate::section::{CaseLine, Section};
use crate::subject::{MissingSubject, take_lines};
use crate::words::Words;
use std::alloc::{AllocError, Global};
use std::sync::Wait;
use std::thread::Threads;

fn line_of<'a>(alloc: Global, place: Place<'a>, text: &'a [u8]) -> CaseLine<'a> {
    let words = Words::of_line(alloc, text);
    let is_head = words.is("row") || words.is("on");
    CaseLine {
        place,
        text,
        is_head,
    }
}

// All lines but comments and empty ones.
fn lines_of<'a>(
    alloc: Global,
    file: &'a [u8],
    text: &'a [u8],
) -> Result<Vec<CaseLine<'a>>, AllocError> {
    let mut lines = Vec::new(alloc);
    let mut line: u64 = 0;
    for part in text.split(|octet| *octet == b'\n') {
        line = line.saturating_add(1);
        if !part.is_empty() && !part.starts_with(b"#") {
            lines.push(line_of(alloc, Place { file, line }, part))?;
        }
    }
    Ok(lines)
}

// `row TITLE`, with no subject after it, or `on NAME ARGUMENTS`.
fn take_section<T: Threads + Wait + AllocGlobal + Copy + Send + 'static>(
    rt: T,
    page: &mut CaseFile,
    section: Section<'_>,
) {
    page.take(section.head);
    let words = Words::of_line(page.alloc, section.head.text);
    if words.is("on") {
        open(rt, page, words.rest(), section);
    } else {
        page.settle_line(section.head.place);
        take_lines(page, &mut MissingSubject, section.lines);
    }
}

fn take_sections<T: Threads + Wait + AllocGlobal + Copy + Send + 'static>(
    rt: T,
    page: &mut CaseFile,
    lines: &[CaseLine<'_>],
) {
    for i in 0..lines.len() {
        let head = lines[i];
        if head.is_head {
            let lines = &lines[i + 1..];
            take_section(rt, page, Section { head, lines });
        }
    }
}

/// Goes over a case file.
pub fn go_over<T: Threads + Wait + AllocGlobal + Copy + Send + 'static>(
    rt: T,
    page: &mut CaseFile,
    file: &[u8],
    text: &[u8],
) {
    page.begin();
    match lines_of(page.alloc, file, text) {
        Ok(lines) => {
            take_lines(page, &mut MissingSubject, lines.as_slice());
            take_sections(rt, page, lines.as_slice());
        }
        Err(_) => page.fail(Place { file, line: 0 }, b"out of memory"),
    }
    page.close(file);
}
