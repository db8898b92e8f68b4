// Measures parts of the work: `roster F` reads the roster of a folder, `board F` builds its board too, and `tree` builds a large tree.
#![tactic(auto)]

mod boards;
mod groups;
mod reading;

use boards::board_of;
use groups::nested_tree;
use reading::{contracts_of, roster_in};
use rm_outside::Sink;
use rm_outside::stream::StreamSink;
use std::alloc::Global;
use std::process::ExitCode;
use std::{env, io};

// The words after the program's name.
fn words(rt: &HostRuntime) -> io::Result<Vec<String>> {
    let mut words = Vec::new(rt.alloc());
    for word in env::args(rt)?.skip(1) {
        words.push(word)?;
    }
    Ok(words)
}

// The number of nodes of the large tree.
fn tree(alloc: Global) -> Option<u32> {
    match nested_tree(alloc) {
        Ok(tree) => Some(tree.nodes()),
        Err(_) => None,
    }
}

// The number of contracts of a folder, told by its roster.
fn roster(rt: &HostRuntime, folder: &str) -> Option<u32> {
    match roster_in(rt, folder) {
        Some(roster) => Some(contracts_of(&roster)),
        None => None,
    }
}

// The same number, told by its board.
fn board(rt: &HostRuntime, folder: &str) -> Option<u32> {
    let Some(roster) = roster_in(rt, folder) else {
        return None;
    };
    match board_of(rt.alloc(), &roster) {
        Some(board) => Some(board.contracts()),
        None => None,
    }
}

// What the words name, and its number. None where the words are no command, or a fault is met.
fn measured(rt: &HostRuntime, words: &[String]) -> Option<(&'static str, u32)> {
    if words.len() == 1 && words[0].as_str() == "tree" {
        return named("nodes", tree(rt.alloc()));
    }
    if words.len() != 2 {
        return None;
    }
    match words[0].as_str() {
        "roster" => named("contracts", roster(rt, &words[1])),
        "board" => named("contracts", board(rt, &words[1])),
        _ => None,
    }
}

// A number with its name.
fn named(name: &'static str, number: Option<u32>) -> Option<(&'static str, u32)> {
    match number {
        Some(number) => Some((name, number)),
        None => None,
    }
}

// Prints a name and its number. Whether it was done.
fn print(rt: &HostRuntime, name: &str, number: u32) -> bool {
    let Ok(line) = format!(in rt.alloc(); "{name} {number}\n") else {
        return false;
    };
    let mut out = StreamSink::new(rt.stdout());
    out.put(line.as_bytes()).is_ok()
}

fn main(rt: HostRuntime) -> ExitCode {
    let Ok(words) = words(&rt) else {
        return ExitCode::from(1);
    };
    let Some((name, number)) = measured(&rt, &words) else {
        return ExitCode::from(1);
    };
    if print(&rt, name, number) {
        return ExitCode::from(0);
    }
    ExitCode::from(1)
}
