// The keys, one a line.
use crate::about::about;
use crate::steps::{forward_key, reset};
use crate::terminal::Terminal;
use script::line::{part, word_at};
use std::rt::Files;
use stepper_calls::length::measure;
use stepper_calls::step::{back_key, run_key};
use stepper_calls::verdict::check_key;
use stepper_desk::input::{LINE, ask, typed_line};
use stepper_desk::key::{Key, key_of, no_allowance, no_file};
use stepper_desk::load::{absent, load, read_bytes};
use stepper_lines::help::{help, no_such_key};
use stepper_lines::page::page;
use stepper_lines::print::text;
use stepper_screen::changes::tell_unchanged;

// Reads a file and opens its program.
pub fn open_file(rt: &impl Files, terminal: &mut Terminal, path: &[u8]) {
    let count = read_bytes(rt, path, &mut terminal.buffer);
    if count == 0 {
        absent(path);
        return;
    }
    let loaded = load(
        path,
        &terminal.buffer,
        count,
        &mut terminal.names,
        &mut terminal.tables,
        terminal.desk,
    );
    terminal.desk = loaded;
    if !loaded.has_file() {
        return;
    }
    terminal.desk = measure(&terminal.tables, loaded);
    reset(terminal);
    terminal.before = terminal.memory;
}

// Keys that tell something of the file. Not inlined: the other keys would take the room for a CALL's arguments and sets too.
#[inline(never)]
fn file_key(terminal: &Terminal, key: Key) {
    if !terminal.desk.has_file() {
        no_file();
        return;
    }
    match key {
        Key::About => about(terminal),
        _ => check_key(&terminal.tables, terminal.desk),
    }
}

// Keys that only show something, change how things are shown, or end.
fn other_key(terminal: &mut Terminal, key: Key) {
    let desk = terminal.desk;
    match key {
        Key::About | Key::Check => file_key(terminal, key),
        Key::Refusals => page(),
        Key::Help => help(),
        Key::Bits => terminal.desk = desk.viewed(desk.view.with_bits()),
        Key::More => terminal.desk = desk.viewed(desk.view.with_all()),
        Key::Quit => terminal.desk = desk.stopped(),
        Key::NoAllowance => no_allowance(),
        _ => no_such_key(),
    }
}

// Keys that step. The cells from before the last step are kept, for what it changed.
fn step_key(terminal: &mut Terminal, key: Key) {
    let desk = terminal.desk;
    terminal.before = terminal.memory;
    match key {
        Key::Forward => forward_key(terminal),
        Key::Run(allowance) => {
            terminal.desk = run_key(
                &terminal.tables,
                desk,
                &mut terminal.memory,
                &mut terminal.journal,
                allowance,
            )
        }
        Key::Back => {
            terminal.desk = back_key(
                &terminal.tables,
                desk,
                &mut terminal.memory,
                &terminal.journal,
            )
        }
        _ => reset(terminal),
    }
    tell_unchanged(&terminal.before, &terminal.memory, desk, terminal.desk);
}

// `o FILE`. A name with a blank in it would open another file.
fn open_key(rt: &impl Files, terminal: &mut Terminal, line: &[u8]) {
    let first = word_at(line, 0, line.len());
    let path = word_at(line, first.end, line.len());
    let more = word_at(line, path.end, line.len());
    if more.start < more.end {
        text(b"o takes one file, and its name has no blanks\n");
        return;
    }
    open_file(rt, terminal, part(line, path.start, path.end));
}

// Asks for a key and acts on it. The end of the input quits.
fn turn(rt: &impl Files, terminal: &mut Terminal) {
    let mut line = [0; LINE];
    let typed = ask(b"key: ", &mut line, terminal.desk.view);
    if typed.ended {
        terminal.desk = terminal.desk.stopped();
        return;
    }
    let keys = typed_line(&line, typed);
    let key = key_of(keys);
    match key {
        Key::Open => open_key(rt, terminal, keys),
        _ if key.steps() => step_key(terminal, key),
        _ => other_key(terminal, key),
    }
    if key.shows() {
        terminal.show();
    }
}

// Nothing says that the keys end, so the turns are counted, up to a number that no session uses up. Not inlined: a check would take the keys' room too.
#[inline(never)]
pub fn turns(rt: &impl Files, terminal: &mut Terminal) {
    for _ in 0..u64::MAX {
        if !terminal.desk.going {
            break;
        }
        turn(rt, terminal);
    }
}
