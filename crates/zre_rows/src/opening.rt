//! The subjects by their names.

use crate::case_file::CaseFile;
use crate::error::RowError;
use crate::section::Section;
use crate::subject::captures::CaptureSubject;
use crate::subject::command::CommandSubject;
use crate::subject::exercises::ExerciseSubject;
use crate::subject::memory::MemorySubject;
use crate::subject::nodes::NodeSubject;
use crate::subject::worlds::WorldSubject;
use crate::subject::{MissingSubject, Subject, take_line, take_lines};
use crate::text::Text;
use crate::wire::beacons::BeaconSubject;
use crate::wire::conns::ConnSubject;
use crate::wire::links::LinkSubject;
use crate::wire::lists::ListSubject;
use crate::wire::messages::MessageSubject;
use crate::wire::own::OwnGroupSubject;
use crate::wire::quoting::QuotingSubject;
use crate::wire::runs::RunSubject;
use crate::wire::streams::StreamSubject;
use crate::wire::timers::TimerSubject;
use crate::wire::values::ValueSubject;
use crate::wire::writing::WritingSubject;
use crate::words::Words;
use std::sync::Wait;
use std::thread::Threads;
use zre_group::Own;

// Takes the section with its subject, or with none where the arguments are bad.
fn take<S: Subject>(page: &mut CaseFile, made: Option<S>, words: &Words<'_>, section: Section<'_>) {
    page.end(words);
    let is_good = !page.row.answer.has_fault();
    page.settle_line(section.head.place);
    match made {
        Some(mut subject) if is_good => take_lines(page, &mut subject, section.lines),
        _ => take_lines(page, &mut MissingSubject, section.lines),
    }
}

// The section of a command, which starts threads: no subject's step can.
fn take_commands<T: Threads + Wait + AllocGlobal + Copy + Send + 'static>(
    rt: T,
    page: &mut CaseFile,
    mut words: Words<'_>,
    section: Section<'_>,
) {
    let mut commands = CommandSubject::new(&mut words);
    page.end(&words);
    page.settle_line(section.head.place);
    for line in section.lines {
        if line.is_head {
            return;
        }
        take_line(page, &mut commands, *line);
        commands.run_due(rt, page.alloc, &mut page.row.answer);
        page.settle_line(line.place);
    }
}

// Takes the section with the subject that has the name.
macro_rules! take_by_name {
    ($page:ident, $words:ident, $section:ident; $($name:literal $made:expr),+) => {{
        $(if $words.is($name) {
            let made = $made;
            return take($page, made, &$words, $section);
        })+
    }};
}

fn take_upper(page: &mut CaseFile, mut words: Words<'_>, section: Section<'_>) {
    take_by_name!(page, words, section;
        "capture" Some(CaptureSubject { text: Text::new(words.alloc()) }),
        "exercise" ExerciseSubject::make(&mut words, &mut page.row.answer),
        "memory" Some(MemorySubject::make(&mut words)),
        "node" NodeSubject::make(&mut words, &mut page.row.answer),
        "world" Some(WorldSubject::make(&mut words)));
    take_wire(page, words, section);
}

fn take_wire(page: &mut CaseFile, mut words: Words<'_>, section: Section<'_>) {
    take_by_name!(page, words, section;
        "conns" Some(ConnSubject::make(&mut words)),
        "links" LinkSubject::make(&mut words, &mut page.row.answer),
        "lists" Some(ListSubject::make(&mut words)),
        "own" Some(OwnGroupSubject { own: Own::new(words.alloc()) }),
        "runs" Some(RunSubject::make(&mut words)),
        "streams" StreamSubject::make(&mut words, &mut page.row.answer),
        "timers" Some(TimerSubject { touches: Vec::new(words.alloc()) }));
    take_plain(page, words, section);
}

fn take_plain(page: &mut CaseFile, words: Words<'_>, section: Section<'_>) {
    take_by_name!(page, words, section; "beacons" Some(BeaconSubject), "messages" Some(MessageSubject),
        "quoting" Some(QuotingSubject), "values" Some(ValueSubject), "writing" Some(WritingSubject));
    page.row.answer.fail(RowError::BadArgument);
    take::<MissingSubject>(page, None, &words, section);
}

/// Takes a section whose subject has the name and the arguments of this text.
pub fn open<T: Threads + Wait + AllocGlobal + Copy + Send + 'static>(
    rt: T,
    page: &mut CaseFile,
    text: &[u8],
    section: Section<'_>,
) {
    let text = page.expanded(text);
    text.is_whole(&mut page.row.answer);
    let words = Words::of_line(page.alloc, text.as_slice());
    if words.is("command") {
        take_commands(rt, page, words, section);
    } else {
        take_upper(page, words, section);
    }
}
