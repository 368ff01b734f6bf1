//! Rows of data: what the public calls of the crates answer, over objects in memory. Each file of the working folder
//! whose name ends in
//! `.rows` is gone over; what differs is printed with its file and
//! line, and last how many rows there were and how many failed.
#![tactic(auto)]

mod acts;
mod case_file;
mod cases;
mod error;
mod journal;
mod names;
mod opening;
mod report;
mod row;
mod section;
mod subject;
mod text;
mod wire;
mod words;

use case_file::CaseFile;
use cases::go_over;
use report::{Place, Report};
use std::io::Write;
use std::process::ExitCode;
use std::rt::Files;
use std::sync::Wait;
use std::thread::Threads;
use std::{fs, io, str};
use words::Words;

// The names of the case files, in order.
fn case_files<R: Files + AllocGlobal + Clone + Drop>(rt: &R) -> io::Result<Vec<String>> {
    let mut names = Vec::new(rt.alloc());
    for entry in fs::read_dir(rt, ".")? {
        let entry = entry?;
        let name = entry.file_name();
        if name.ends_with(".rows") {
            names.push(String::from_str(rt.alloc(), name)?)?;
        }
    }
    names.sort()?;
    Ok(names)
}

// Reads a file that is included, unless it was read before. One that can't be read is unknown at its line.
fn read_included<R: Files + AllocGlobal + Copy>(rt: &R, page: &mut CaseFile, file: &[u8]) {
    if page.has_included(file) {
        return;
    }
    if let Ok(name) = str::from_utf8(file) {
        if let Ok(text) = fs::read(rt, name) {
            page.keep_included(file, text.as_slice());
        }
    }
}

fn read_all_included<R: Files + AllocGlobal + Copy>(rt: &R, page: &mut CaseFile, text: &[u8]) {
    for line in text.split(|octet| *octet == b'\n') {
        let words = Words::of_line(page.alloc, line);
        if words.is("include") {
            read_included(rt, page, words.rest());
        }
    }
}

// Goes over the file of this name. One that can't be read counts as failed.
fn take_file<R: Files + Threads + Wait + AllocGlobal + Copy + Send + 'static>(
    rt: R,
    name: &str,
    page: &mut CaseFile,
) {
    let file = name.as_bytes();
    match fs::read(&rt, name) {
        Ok(text) => {
            read_all_included(&rt, page, text.as_slice());
            go_over(rt, page, file, text.as_slice());
        }
        Err(_) => {
            page.report.count_failed();
            page.report.tell(Place { file, line: 0 }, b"can't be read");
        }
    }
}

fn take_files<R: Files + Threads + Wait + AllocGlobal + Copy + Send + 'static>(
    rt: R,
    names: &[String],
) -> Report {
    let mut page = CaseFile::new(rt.alloc());
    for name in names {
        take_file(rt, name.as_str(), &mut page);
    }
    page.into_report()
}

// Prints the report, and says whether all is well. One for which memory didn't suffice isn't printed.
fn print<R: Files + AllocGlobal + Print + Clone + Drop>(rt: &R, report: &Report) -> bool {
    !report.text.has_fault()
        && io::writer(rt).write_all(report.text.as_slice()).is_ok()
        && report.is_good()
}

fn go<R: Files + Threads + Wait + AllocGlobal + Print + Clone + Drop + Copy + Send + 'static>(
    rt: R,
) -> bool {
    match case_files(&rt) {
        Ok(names) => print(&rt, &take_files(rt, names.as_slice())),
        Err(_) => false,
    }
}

fn main(rt: HostRuntime) -> ExitCode {
    if go(rt) {
        ExitCode::from(0)
    } else {
        ExitCode::from(1)
    }
}
