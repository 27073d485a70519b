//! What a line of a row says.

use pair_report::{Got, ReportOptions};
use wp_outside::{HandleKind, Side};

/// One line.
#[derive(Clone, Copy)]
pub enum Step<'a> {
    /// One of the proxies does something, or shows itself.
    Of(Side, Act<'a>),
    /// A connection comes up on both sides, and goes down.
    Connect(u32),
    Break,
    /// At most so many bytes are carried.
    Up(u32),
    Down(u32),
    /// All bytes are carried, both ways.
    Settle,
    /// All words of both files get a value.
    Fill(u64),
    /// Both records are compared.
    Audit,
    /// The peers are given what there is for them.
    Give,
    /// The report.
    Report(ReportOptions),
    /// A small session is cut behind each of its bytes.
    Cuts,
}

/// What one proxy does, or shows.
#[derive(Clone, Copy)]
pub enum Act<'a> {
    /// Its peer puts the same messages on its wire so many times, a message by its text, a handle,
    /// a note.
    Say(u32, &'a str),
    Tell(&'a str),
    Hand(i32, HandleKind),
    Note,
    /// Its peer writes to a pipe, closes a write end, closes a reading end.
    Write(i32, &'a str),
    End(i32),
    Shut(i32),
    /// Its copies are made; one is made, and something happens before it comes back.
    Copies,
    Late(&'a str),
    /// It is asked to close.
    Close(u32),
    /// A connection comes up on its side alone, and goes down.
    Connect(u32),
    Break,
    /// Bytes come to it, in one piece or in pieces of at most so many bytes.
    Read(&'a str),
    Pieces(u32, &'a str),
    /// It writes at most so many bytes, which are lost.
    Lose(u32),
    /// Its record grows until it weighs so much.
    Weigh(u32),
    /// What it is to write next, what its peer is given, its counts, its connections, how it
    /// ends, its whole record.
    Front,
    Gives,
    Show,
    Lines,
    Ends,
    Record,
}

impl<'a> Step<'a> {
    /// What a line says; None where it says nothing.
    pub fn read(line: &'a str) -> Option<Step<'a>> {
        let (name, rest) = first_word(line);
        match (name, number(rest)) {
            ("near", _) => of_side(Side::Near, rest),
            ("far", _) => of_side(Side::Far, rest),
            ("connect", Some(connection)) => Some(Step::Connect(connection)),
            ("break", _) => Some(Step::Break),
            ("up", Some(most)) => Some(Step::Up(most)),
            ("down", Some(most)) => Some(Step::Down(most)),
            ("settle", _) => Some(Step::Settle),
            ("fill", _) => fill(rest),
            ("audit", _) => Some(Step::Audit),
            ("give", _) => Some(Step::Give),
            ("report", _) => report_of(rest),
            ("cuts", _) => Some(Step::Cuts),
            _ => None,
        }
    }
}

fn of_side(side: Side, rest: &str) -> Option<Step<'_>> {
    match Act::read(rest) {
        Some(act) => Some(Step::Of(side, act)),
        None => None,
    }
}

fn fill(word: &str) -> Option<Step<'_>> {
    match word.parse() {
        Ok(value) => Some(Step::Fill(value)),
        Err(_) => None,
    }
}

fn report_of(rest: &str) -> Option<Step<'_>> {
    let (name, behind) = first_word(rest);
    let long = name == "long";
    match got(if long { behind } else { name }) {
        Some(got) => Some(Step::Report(ReportOptions { long, got })),
        None => None,
    }
}

fn got(name: &str) -> Option<Got> {
    match name {
        "hexadecimal" => Some(Got::Hexadecimal),
        "text" => Some(Got::Text),
        "without" => Some(Got::LeftOut),
        _ => None,
    }
}

impl<'a> Act<'a> {
    /// What the words behind a side's name say; None where they say nothing.
    pub fn read(line: &'a str) -> Option<Act<'a>> {
        let (name, rest) = first_word(line);
        match (name, number(rest)) {
            ("say", _) => Some(Act::Say(1, rest)),
            ("tell", _) => Some(Act::Tell(rest)),
            ("repeat" | "pieces", _) => Act::with_number(name, rest),
            ("note", _) => Some(Act::Note),
            ("copies", _) => Some(Act::Copies),
            ("late", _) => Some(Act::Late(rest)),
            ("close", Some(reason)) => Some(Act::Close(reason)),
            ("connect", Some(connection)) => Some(Act::Connect(connection)),
            ("break", _) => Some(Act::Break),
            ("read", _) => Some(Act::Read(rest)),
            ("lose", Some(most)) => Some(Act::Lose(most)),
            ("weigh", Some(weight)) => Some(Act::Weigh(weight)),
            ("file" | "pipe" | "write" | "end" | "shut", _) => Act::on_handle(name, rest),
            _ => Act::look(name),
        }
    }

    // What is done with a number, and the words behind it.
    fn with_number(name: &str, rest: &'a str) -> Option<Act<'a>> {
        let (word, behind) = first_word(rest);
        match (name, number(word)) {
            ("repeat", Some(times)) => Some(Act::Say(times, behind)),
            ("pieces", Some(most)) => Some(Act::Pieces(most, behind)),
            _ => None,
        }
    }

    // What is done with a handle, whose number may be below 0.
    fn on_handle(name: &str, rest: &'a str) -> Option<Act<'a>> {
        let (word, behind) = first_word(rest);
        match (name, handle(word)) {
            ("file", Some(number)) => Some(Act::Hand(number, HandleKind::File)),
            ("pipe", Some(number)) => Some(Act::Hand(number, HandleKind::PipeWrite)),
            ("write", Some(pipe)) => Some(Act::Write(pipe, behind)),
            ("end", Some(pipe)) => Some(Act::End(pipe)),
            ("shut", Some(pipe)) => Some(Act::Shut(pipe)),
            _ => None,
        }
    }

    fn look(name: &str) -> Option<Act<'a>> {
        match name {
            "front" => Some(Act::Front),
            "gives" => Some(Act::Gives),
            "show" => Some(Act::Show),
            "lines" => Some(Act::Lines),
            "ends" => Some(Act::Ends),
            "record" => Some(Act::Record),
            _ => None,
        }
    }
}

// The first word of a line, and what is behind it.
fn first_word(line: &str) -> (&str, &str) {
    match line.split_once(' ') {
        Some((name, rest)) => (name, rest),
        None => (line, ""),
    }
}

// The number that a word names.
fn number(word: &str) -> Option<u32> {
    word.parse().ok()
}

// The number of a handle that a word names.
fn handle(word: &str) -> Option<i32> {
    word.parse().ok()
}
