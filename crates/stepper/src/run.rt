// The program: `FILE` steps it, `check FILE` tells its verdict and how long a journal is enough, one after the other as they are named; `tables FILE` prints its six tables as words, `refusals` the page of refusals.
use crate::keys::{open_file, turns};
use crate::terminal::Terminal;
use std::env::FillError;
use std::io::IsTerminal;
use std::rt::{Env, Files};
use stepper_desk::state::{Desk, JOURNAL_WORDS, MEMORY_WORDS, State, TEXT_BYTES, new_desk};
use stepper_lines::help::help;
use stepper_lines::page::page;
use stepper_lines::print::{number, text};
use stepper_screen::enough::enough_line;
use stepper_screen::table_words::table_words;
use stepper_tables::file::TABLE_WORDS;
use stepper_words::names::NAME_WORDS;

// The last line tells the verdict to the script that started the program: of an accepted one it is the journal's.
fn verdict(desk: Desk) {
    match desk.state {
        State::Opened => {
            text(b"accepted\n");
            enough_line(desk.enough)
        }
        State::NoFile => text(b"not read\n"),
        State::Refused(refusal) => {
            text(b"turned down ");
            number(refusal.number());
            text(b"\n")
        }
    }
}

// Tells a file's verdict, with nothing cut, or steps it. The terminal is made here and lent from here on: it is large, and handed on by value it is copied.
fn start(rt: &impl Files, path: &[u8], only_check: bool, desk: Desk) {
    let mut terminal = Terminal {
        buffer: [0; TEXT_BYTES],
        names: [0; NAME_WORDS],
        tables: [0; TABLE_WORDS],
        before: [0; MEMORY_WORDS],
        memory: [0; MEMORY_WORDS],
        journal: [0; JOURNAL_WORDS],
        desk: if only_check {
            desk.viewed(desk.view.with_all())
        } else {
            desk
        },
    };
    open_file(rt, &mut terminal, path);
    if only_check {
        verdict(terminal.desk);
    } else if terminal.desk.has_file() {
        terminal.show();
        text(b"h shows the keys\n");
        turns(rt, &mut terminal);
    }
}

// All arguments, one after the other: a file to step, or `check` and a file whose verdict is told. After a last `check` there is no file to read. Not inlined: the help would take the terminal's room too.
#[inline(never)]
fn arguments(rt: &(impl Env + Files), desk: Desk) {
    let mut word = io::buffer();
    let mut only_check = false;
    for at in 1..usize::MAX {
        let length = match rt.arg(at, &mut word) {
            Ok(length) => length,
            Err(FillError::NotPresent) => break,
            Err(_) => 0,
        };
        let path = &word[..length];
        if !only_check && path == b"check".as_slice() {
            only_check = true;
        } else {
            start(rt, path, only_check, desk);
            only_check = false;
        }
    }
    if only_check {
        verdict(desk);
    }
}

pub fn run(rt: &(impl Env + Files), stdout: &impl IsTerminal, stdin: &impl IsTerminal) {
    let desk = new_desk(stdout.is_terminal(), !stdin.is_terminal());
    let mut word = io::buffer();
    let length = rt.arg(1, &mut word).unwrap_or(0);
    match &word[..length] {
        b"" => help(),
        b"refusals" => page(),
        b"tables" => table_words(rt, desk),
        _ => arguments(rt, desk),
    }
}
