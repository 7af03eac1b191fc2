//! The words of the command line, read.
use fd_rows::{agreed, is};
use fd_words::{Command, Dataset, read_command};
use std::alloc::Global;

/// A command's name, its root, how many decimals, messages or pairs it has (of `pick`: of levels; of `purge` and `wipe`: whether
/// its dataset is `class=od`), and how many workers.
type Told<'a> = (&'static str, &'a str, u32, u32);

/// Tells by 1 that the dataset is `class=od`.
fn is_class(dataset: &Dataset) -> u32 {
    u32::from(dataset.as_str() == "class=od")
}

/// What a command asks for.
fn told(command: &Command) -> Told<'_> {
    match command {
        Command::Pick(wanted) => ("pick", "", u32::from(wanted.has("levelist")), 0),
        Command::Describe => ("describe", "", 0, 0),
        Command::Values(decimals) => ("values", "", decimals.map_or(99, u32::from), 0),
        Command::Generate(count) => ("generate", "", *count, 0),
        Command::Create(root) => ("create", root.as_str(), 0, 0),
        Command::Archive(root, given, workers) => {
            ("archive", root.as_str(), given.len(), *workers)
        }
        Command::Retrieve(root, workers) => ("retrieve", root.as_str(), 0, *workers),
        Command::RetrieveOver(root, layers, workers) => {
            ("over", root.as_str(), (layers.len() & 7) as u32, *workers)
        }
        Command::List(root) => ("list", root.as_str(), 0, 0),
        Command::Axes(root) => ("axes", root.as_str(), 0, 0),
        Command::Stats(root) => ("stats", root.as_str(), 0, 0),
        Command::Cubes(root) => ("cubes", root.as_str(), 0, 0),
        Command::Session(root) => ("session", root.as_str(), 0, 0),
        Command::Purge(root, dataset) => ("purge", root.as_str(), is_class(dataset), 0),
        Command::Wipe(root, dataset) => ("wipe", root.as_str(), is_class(dataset), 0),
        Command::Split => ("split", "", 0, 0),
        Command::Trial(root, count, workers) => ("trial", root.as_str(), *count, *workers),
    }
}

/// The words of a row, with commas between them.
fn words(alloc: Global, row: &str) -> Option<Vec<&str>> {
    let mut words = Vec::new(alloc);
    let mut rest = row;
    for _ in 0..10 {
        let Some((word, more)) = rest.split_once(',') else {
            break;
        };
        words.push(word).ok()?;
        rest = more;
    }
    words.push(rest).ok()?;
    Some(words)
}

/// Tells that the command is told so.
fn is_told(alloc: Global, command: &Command, want: &str) -> bool {
    let (name, root, count, workers) = told(command);
    is(format!(in alloc; "{name},{root},{count},{workers}"), want)
}

/// Tells that the words ask for this, or for nothing.
fn asks_for(alloc: Global, words: &[&str], want: &str) -> bool {
    match read_command(alloc, words) {
        Ok(Some(command)) => is_told(alloc, &command, want),
        Ok(None) => want.is_empty(),
        Err(_) => false,
    }
}

/// The same of a row of a table.
fn is_row(alloc: Global, row: &str, want: &str) -> bool {
    match words(alloc, row) {
        Some(words) => asks_for(alloc, &words, want),
        None => false,
    }
}

/// Words, and what the command that they ask for is told as; or nothing, where they have no form.
const ASKED: &str = "\
pick,step=0,LEVELIST=850.0|pick,,1,0\n\
describe|describe,,0,0\n\
values|values,,99,0\n\
values,--decimals=01|values,,1,0\n\
values,--decimals,30|values,,30,0\n\
generate,000100000|generate,,100000,0\n\
create,s|create,s,0,0\n\
archive,s|archive,s,0,1\n\
archive,--with=class=od,--workers=8,s|archive,s,1,8\n\
retrieve,a b|retrieve,a b,0,1\n\
retrieve,s,--workers,8|retrieve,s,0,8\n\
retrieve,--workers=04,s|retrieve,s,0,4\n\
retrieve,s,--over,expver=0001|over,s,1,1\n\
retrieve,--over=EXPVER=1/a=1/a=1/a=1/a=1/a=1/a=1,--workers,2,s|over,s,7,2\n\
list,s|list,s,0,0\n\
axes,s|axes,s,0,0\n\
stats,s|stats,s,0,0\n\
session,s|session,s,0,0\n\
trial,s,--workers,4,400|trial,s,400,4\n\
trial,s,1|trial,s,1,1\n\
split|split,,0,0\n\
cubes,s|cubes,s,0,0\n\
purge,s,class=od|purge,s,1,0\n\
wipe,s,class=od|wipe,s,1,0\n\
wipe,s,step=0|wipe,s,0,0\n\
help|\n\
--version|\n\
Stats,s|\n\
pick|\n\
pick,--,step=0|\n\
pick,step=0,STEP=0|\n\
describe,s|\n\
split,s|\n\
values,1|\n\
values,--decimals,31|\n\
values,--decimals=1,--decimals=1|\n\
generate,0|\n\
generate,100001|\n\
generate,1,2|\n\
list,s,t|\n\
axes,--with=class=od,s|\n\
create|\n\
create,|\n\
create,-|\n\
create,s,t|\n\
archive,s,--with,step=0|\n\
archive,s,--with|\n\
archive,s,--workers,9|\n\
trial,s|\n\
trial,400,s|\n\
trial,s,0|\n\
trial,s,100001|\n\
trial,-s,1|\n\
trial,s,1,2|\n\
trial,s,1,--workers=0|\n\
retrieve,s,--workers,0|\n\
retrieve,s,--workers=9|\n\
retrieve,s,--workers|\n\
retrieve,s,--over|\n\
retrieve,s,--over,levelist=5|\n\
retrieve,s,--over,a=1//a=2|\n\
retrieve,s,--over=a=1/a=1/a=1/a=1/a=1/a=1/a=1/a=1|\n\
cubes|\n\
cubes,s,t|\n\
purge,s|\n\
purge,s,|\n\
purge,s,class|\n\
purge,s,step=00|\n\
purge,class=od,s|\n\
purge,s,class=od,t|\n\
purge,-s,class=od|\n\
wipe|\n\
wipe,s,levelist=850.0|\n\
wipe,s,--dataset=class=od|\n\
stats,--help|\n\
stats,s,--|\n";

#[test]
fn reads_or_refuses_words(rt: HostRuntime) {
    assert_eq!(rt; agreed(rt.alloc(), ASKED, is_row), 76);
    assert!(rt; asks_for(rt.alloc(), &[], ""));
}
