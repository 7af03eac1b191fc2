ghost use Rattle.std.specs.{Prelude.{◌≡◌, ◌≤◌, codes, IfOk, IfSome, option_and_then}, Str.{bytes_eq}, Map.{lookup}, Option.{option_copied}};
ghost use Rattle.clap.specs.Words.{rows_of, found_of};
ghost use Rattle.fd_words.specs.{Texts.{texts}, Reading.{Said, Tells}, Grammar.{options_of}, Words.{archive_of, command_of, command_said, listing_of, rooted, wanted_pairs, pick_of, describe_of, values_of, is_root, root_of, given_in, given_read, workers_in, IsWithinLimits, generate_of, trial_of, split_of, retrieve_of, root_and_dataset, purge_of, wipe_of}};

use crate::layers::{Layers, layers_read};
use crate::named::{Dataset, Root};
use crate::numbers::{count_number, decimals_number, worker_number};
use crate::parse::{alone, option_text, parse};
use crate::wanted::Wanted;
use clap::ArgMatches;
use fd_bytes::NoMemory;
use fd_key::{Given, GivenFault, ValueFault, read_pair};
use fd_script::is_dataset;
use std::alloc::Global;

/// What the words ask for.
#[derive(Drop)]
pub enum Command {
    /// The last message of a stream whose key has all the pairs.
    Pick(Wanted),
    /// What each message of a stream holds.
    Describe,
    /// The values of each message of a stream, exactly, or with so many decimals.
    Values(Option<u8>),
    /// So many messages that are made up.
    Generate(u32),
    /// To store a schema.
    Create(Root),
    /// To store the messages of a stream, with the given pairs in their keys, by so many workers.
    Archive(Root, Given, u32),
    /// The stored messages of a request, which so many workers look for.
    Retrieve(Root, u32),
    /// The same, each out of the nearest of its dataset and the datasets under it that has it: those of its key with each layer's values.
    RetrieveOver(Root, Layers, u32),
    /// A line for each stored key.
    List(Root),
    /// A line for the values of each name.
    Axes(Root),
    /// A line for each dataset.
    Stats(Root),
    /// Requests that name exactly the keys that are asked for.
    Cubes(Root),
    /// The lanes of a script, side by side.
    Session(Root),
    /// To store so many messages that are made up, and to look for them, by so many workers.
    Trial(Root, u32, u32),
    /// All fields of a stream, each as a message of its own.
    Split,
    /// To drop the entries of a dataset that later ones mask, with their files.
    Purge(Root, Dataset),
    /// To drop all entries of a dataset, with their files.
    Wipe(Root, Dataset),
}

/// The command that the words ask for, or none where they have no form.
pub fn read_command(alloc: Global, words: &[&str]) -> Result<Option<Command>, NoMemory>
    ensures command { IfOk result (λ o. o ≡ command_of (texts words.now)) }
    ensures within { IfOk result (λ o. IfSome o IsWithinLimits) }
{
    match parse(alloc, words)? {
        None => Ok(None),
        Some(matches) => match matches.subcommand() {
            None => Ok(None),
            Some((name, own)) => command_named(alloc, name, own),
        },
    }
}

/// The command of this name, with what the words behind the name say.
fn command_named(
    alloc: Global,
    name: &str,
    own: &ArgMatches<'_>,
) -> Result<Option<Command>, NoMemory>
    ensures command { (s : Said) → Tells (options_of name.now) s (rows_of (found_of own.now)) → IfOk result (λ o. o ≡ command_said name.now s) }
    ensures within { IfOk result (λ o. IfSome o IsWithinLimits) }
{
    match alone(own) {
        Some(words) => command_with(alloc, name, own, words),
        None => command_with(alloc, name, own, &[]),
    }
}

/// The command of this name, with these words that stand alone.
fn command_with(
    alloc: Global,
    name: &str,
    own: &ArgMatches<'_>,
    words: &[&str],
) -> Result<Option<Command>, NoMemory>
    ensures command { (s : Said) → Tells (options_of name.now) s (rows_of (found_of own.now)) → s.alone ≡ texts words.now → IfOk result (λ o. o ≡ command_said name.now s) }
    ensures within { IfOk result (λ o. IfSome o IsWithinLimits) }
{
    if name == "pick" {
        return pick_command(alloc, words);
    }
    if name == "describe" {
        return Ok(describe_command(words));
    }
    if name == "values" {
        return Ok(values_command(words, option_text(own, "decimals")));
    }
    if name == "generate" {
        return Ok(generate_command(words));
    }
    if name == "trial" {
        return trial_command(alloc, words, option_text(own, "workers"));
    }
    if name == "retrieve" {
        return retrieve_command(
            alloc,
            words,
            option_text(own, "workers"),
            option_text(own, "over"),
        );
    }
    if name == "split" {
        return Ok(split_command(words));
    }
    if name == "purge" {
        return purge_command(alloc, words);
    }
    if name == "wipe" {
        return wipe_command(alloc, words);
    }
    match root_in(alloc, words)? {
        Some(root) => rooted(alloc, name, root, own),
        None => Ok(None),
    }
}

/// A command that has a root.
fn rooted(
    alloc: Global,
    name: &str,
    root: Root,
    own: &ArgMatches<'_>,
) -> Result<Option<Command>, NoMemory>
    ensures command { (s : Said) → Tells (options_of name.now) s (rows_of (found_of own.now)) → IfOk result (λ o. o ≡ rooted name.now (given_in (lookup (bytes_eq (codes "with")) s.options)) (workers_in (lookup (bytes_eq (codes "workers")) s.options)) root) }
    ensures within { IfOk result (λ o. IfSome o IsWithinLimits) }
{
    if name == "create" {
        return Ok(Some(Command::Create(root)));
    }
    if name == "archive" {
        return archive_command(
            alloc,
            root,
            option_text(own, "with"),
            option_text(own, "workers"),
        );
    }
    Ok(listing_of(name, root))
}

/// A command that lists what a store holds, or runs lanes in it.
fn listing_of(name: &str, root: Root) -> Option<Command>
    ensures command { result ≡ listing_of name.now root }
    ensures within { IfSome result IsWithinLimits }
{
    if name == "list" {
        return Some(Command::List(root));
    }
    if name == "axes" {
        return Some(Command::Axes(root));
    }
    if name == "stats" {
        return Some(Command::Stats(root));
    }
    if name == "cubes" {
        return Some(Command::Cubes(root));
    }
    if name == "session" {
        return Some(Command::Session(root));
    }
    None
}

/// `archive` with the texts of its options, as far as it has them.
fn archive_command(
    alloc: Global,
    root: Root,
    with: Option<&str>,
    workers: Option<&str>,
) -> Result<Option<Command>, NoMemory>
    ensures command { IfOk result (λ o. o ≡ archive_of root (given_in (option_copied with.entry)) (workers_in (option_copied workers.entry))) }
    ensures within { IfOk result (λ o. IfSome o IsWithinLimits) }
{
    let text = match with {
        Some(text) => text,
        None => "",
    };
    let Some(given) = given_read(alloc, text)? else {
        return Ok(None);
    };
    match workers_in(workers) {
        Some(workers) => Ok(Some(Command::Archive(root, given, workers))),
        None => Ok(None),
    }
}

/// `retrieve` with the texts of its options, as far as it has them.
fn retrieve_command(
    alloc: Global,
    words: &[&str],
    workers: Option<&str>,
    over: Option<&str>,
) -> Result<Option<Command>, NoMemory>
    ensures command { IfOk result (λ o. o ≡ option_and_then (retrieve_of (workers_in (option_copied workers.entry)) (option_copied over.entry)) (root_of (texts words.now))) }
    ensures within { IfOk result (λ o. IfSome o IsWithinLimits) }
{
    let Some(root) = root_in(alloc, words)? else {
        return Ok(None);
    };
    let Some(workers) = workers_in(workers) else {
        return Ok(None);
    };
    match over {
        None => Ok(Some(Command::Retrieve(root, workers))),
        Some(text) => match layers_read(alloc, text)? {
            Some(layers) => Ok(Some(Command::RetrieveOver(root, layers, workers))),
            None => Ok(None),
        },
    }
}

/// `trial` with the text of its option, if it has one: a root, and a number of messages.
fn trial_command(
    alloc: Global,
    words: &[&str],
    workers: Option<&str>,
) -> Result<Option<Command>, NoMemory>
    ensures command { IfOk result (λ o. o ≡ trial_of (texts words.now) (workers_in (option_copied workers.entry))) }
    ensures within { IfOk result (λ o. IfSome o IsWithinLimits) }
{
    let [word, number] = words else {
        return Ok(None);
    };
    if !is_root(word) {
        return Ok(None);
    }
    let Some(count) = count_number(number.as_bytes()) else {
        return Ok(None);
    };
    match workers_in(workers) {
        Some(workers) => Ok(Some(Command::Trial(Root::new(alloc, word)?, count, workers))),
        None => Ok(None),
    }
}

/// The number of workers that the text of an option says; 1 where there is none.
fn workers_in(option: Option<&str>) -> Option<u32>
    ensures number { result ≡ workers_in (option_copied option.entry) }
    ensures within { IfSome result (λ n. (1 ≤ n) × (n ≤ 8)) }
{
    match option {
        Some(text) => worker_number(text.as_bytes()),
        None => Some(1),
    }
}

/// The pairs that a word gives.
pub(crate) fn given_read(alloc: Global, text: &str) -> Result<Option<Given>, NoMemory>
    ensures { IfOk result (λ o. o ≡ given_read text.now) }
{
    if text.len() >= 0x8000_0000 {
        return Ok(None);
    }
    match Given::read(alloc, text) {
        Ok(given) => Ok(Some(given)),
        Err(GivenFault::NoMemory) => Err(NoMemory),
        Err(_) => Ok(None),
    }
}

/// The root that the words are, where they are one word that can be one.
fn root_in(alloc: Global, words: &[&str]) -> Result<Option<Root>, NoMemory>
    ensures { IfOk result (λ o. o ≡ root_of (texts words.now)) }
{
    match words {
        [word] => {
            if is_root(word) {
                Ok(Some(Root::new(alloc, word)?))
            } else {
                Ok(None)
            }
        }
        _ => Ok(None),
    }
}

/// Tells that a word can be a root: it is neither empty nor begins with a hyphen.
fn is_root(word: &str) -> bool
    ensures { result ≡ is_root word.now }
{
    match word.as_bytes() {
        [] => false,
        [first, ..] => *first != b'-',
    }
}

/// `pick` of one or more pairs.
fn pick_command(alloc: Global, words: &[&str]) -> Result<Option<Command>, NoMemory>
    ensures command { IfOk result (λ o. o ≡ pick_of (texts words.now)) }
    ensures within { IfOk result (λ o. IfSome o IsWithinLimits) }
{
    if words.is_empty() {
        return Ok(None);
    }
    match wanted_pairs(alloc, words)? {
        Some(wanted) => Ok(Some(Command::Pick(wanted))),
        None => Ok(None),
    }
}

/// `describe`, which has no words behind it.
fn describe_command(words: &[&str]) -> Option<Command>
    ensures command { result ≡ describe_of (texts words.now) }
    ensures within { IfSome result IsWithinLimits }
{
    match words {
        [] => Some(Command::Describe),
        _ => None,
    }
}

/// `split`, which has no words behind it.
fn split_command(words: &[&str]) -> Option<Command>
    ensures command { result ≡ split_of (texts words.now) }
    ensures within { IfSome result IsWithinLimits }
{
    match words {
        [] => Some(Command::Split),
        _ => None,
    }
}

/// `purge` of a dataset.
fn purge_command(alloc: Global, words: &[&str]) -> Result<Option<Command>, NoMemory>
    ensures command { IfOk result (λ o. o ≡ purge_of (texts words.now)) }
    ensures within { IfOk result (λ o. IfSome o IsWithinLimits) }
{
    match root_and_dataset(alloc, words)? {
        Some((root, dataset)) => Ok(Some(Command::Purge(root, dataset))),
        None => Ok(None),
    }
}

/// `wipe` of a dataset.
fn wipe_command(alloc: Global, words: &[&str]) -> Result<Option<Command>, NoMemory>
    ensures command { IfOk result (λ o. o ≡ wipe_of (texts words.now)) }
    ensures within { IfOk result (λ o. IfSome o IsWithinLimits) }
{
    match root_and_dataset(alloc, words)? {
        Some((root, dataset)) => Ok(Some(Command::Wipe(root, dataset))),
        None => Ok(None),
    }
}

/// The root and the dataset that the words are, where they are two that can be these.
fn root_and_dataset(alloc: Global, words: &[&str]) -> Result<Option<(Root, Dataset)>, NoMemory>
    ensures { IfOk result (λ o. o ≡ root_and_dataset (texts words.now)) }
{
    let [word, text] = words else {
        return Ok(None);
    };
    if !is_root(word) || !is_dataset(alloc, text)? {
        return Ok(None);
    }
    Ok(Some((Root::new(alloc, word)?, Dataset::new(alloc, text)?)))
}

/// `values`, with or without a number of decimals.
fn values_command(words: &[&str], decimals: Option<&str>) -> Option<Command>
    ensures command { result ≡ values_of (texts words.now) (option_copied decimals.entry) }
    ensures within { IfSome result IsWithinLimits }
{
    if !words.is_empty() {
        return None;
    }
    let Some(text) = decimals else {
        return Some(Command::Values(None));
    };
    match decimals_number(text.as_bytes()) {
        Some(decimals) => Some(Command::Values(decimals)),
        None => None,
    }
}

/// `generate` of a number of messages.
fn generate_command(words: &[&str]) -> Option<Command>
    ensures command { result ≡ generate_of (texts words.now) }
    ensures within { IfSome result IsWithinLimits }
{
    let [word] = words else {
        return None;
    };
    match count_number(word.as_bytes()) {
        Some(count) => Some(Command::Generate(count)),
        None => None,
    }
}

/// The pairs that the words stand for, where each word is one and no name comes twice.
fn wanted_pairs(alloc: Global, words: &[&str]) -> Result<Option<Wanted>, NoMemory>
    ensures { IfOk result (λ o. o ≡ wanted_pairs (texts words.now)) }
{
    let mut wanted = Wanted::new(alloc);
    for word in words {
        let (name, text) = match read_pair(alloc, word) {
            Ok(pair) => pair,
            Err(ValueFault::BadValue) => return Ok(None),
            Err(ValueFault::NoMemory) => return Err(NoMemory),
        };
        if wanted.has(name.as_str()) {
            return Ok(None);
        }
        wanted.push(name, text)?;
    }
    Ok(Some(wanted))
}
