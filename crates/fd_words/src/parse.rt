// The words by the parser, and what it hands out.
ghost use Rattle.std.specs.{Prelude.{◌≡◌, ◌≢◌, [], false, true, IfOk, IsErrOf, MatchOption, None, map, option_map}, Str.{bytes_eq}, Map.{lookup}, Option.{option_copied}};
ghost use Rattle.clap.specs.Words.{app_of, fault_of, is_simple, is_simple_and_free, subcommand_of, subcommand_rows_of, rows_of, found_of};
ghost use Rattle.fd_words.specs.{Grammar.{fdb_app}, Texts.{texts}, Reading.{Said, has_dash, double_dash, AreClean, IsClean, is_name, Tells, alone_of}, Saying.{said, Means}};

use crate::app::program;
use clap::error::ErrorKind;
use clap::{ArgMatches, Command};
use fd_bytes::NoMemory;
use std::alloc::Global;

/// Why the parser refused words.
enum Refusal {
    Words,
    NoMemory,
}

/// What a program makes of the words.
fn parsed<'a>(program: Command<'a>, words: &'a [&'a str]) -> Result<ArgMatches<'a>, Refusal>
    requires simple { is_simple (app_of program) ≡ true }
    requires free { is_simple_and_free (app_of program) ≡ true }
    ensures ok { IfOk result (λ m. fault_of (app_of program.entry) (map (λ s. s.now) words.entry.now) ≡ []) }
    ensures rows { IfOk result (λ m. subcommand_rows_of m ≡ subcommand_of (app_of program.entry) (map (λ s. s.now) words.entry.now)) }
    ensures words { IsErrOf result Refusal.Words → fault_of (app_of program.entry) (map (λ s. s.now) words.entry.now) ≢ [] }
{
    match program.try_get_matches_from(words) {
        Ok(matches) => Ok(matches),
        Err(error) => {
            if error.kind() == ErrorKind::OutOfMemory {
                Err(Refusal::NoMemory)
            } else {
                Err(Refusal::Words)
            }
        }
    }
}

/// What the parser makes of the words.
fn matched<'a>(alloc: Global, words: &'a [&'a str]) -> Result<ArgMatches<'a>, Refusal>
    ensures ok { IfOk result (λ m. fault_of fdb_app (map (λ s. s.now) words.entry.now) ≡ []) }
    ensures rows { IfOk result (λ m. subcommand_rows_of m ≡ subcommand_of fdb_app (map (λ s. s.now) words.entry.now)) }
    ensures words { IsErrOf result Refusal.Words → fault_of fdb_app (map (λ s. s.now) words.entry.now) ≢ [] }
{
    match program(alloc) {
        Ok(program) => parsed(program, words),
        Err(_) => Err(Refusal::NoMemory),
    }
}

/// Whether a word is `--`.
fn is_dash(word: &str) -> bool
    ensures test { result ≡ bytes_eq word.now double_dash }
    ensures clean { result ≡ false → IsClean word.now }
{
    word == "--"
}

/// Whether one of the words is `--`.
fn any_dash(words: &[&str]) -> bool
    ensures test { result ≡ has_dash (texts words.now) }
    ensures clean { result ≡ false → AreClean (texts words.now) }
{
    for word in words {
        if is_dash(word) {
            return true;
        }
    }
    false
}

/// What the words say, where none of them is `--`.
fn parse_clean<'a>(alloc: Global, words: &'a [&'a str]) -> Result<Option<ArgMatches<'a>>, NoMemory>
    requires { AreClean (texts words.now) }
    ensures { IfOk result (λ o. MatchOption o (said (texts words.entry.now) ≡ None) (λ m. Means m (said (texts words.entry.now)))) }
{
    match matched(alloc, words) {
        Ok(matches) => Ok(Some(matches)),
        Err(Refusal::Words) => Ok(None),
        Err(Refusal::NoMemory) => Err(NoMemory),
    }
}

/// What the words say, or none where they have no form.
pub(crate) fn parse<'a>(
    alloc: Global,
    words: &'a [&'a str],
) -> Result<Option<ArgMatches<'a>>, NoMemory>
    ensures { IfOk result (λ o. MatchOption o (said (texts words.entry.now) ≡ None) (λ m. Means m (said (texts words.entry.now)))) }
{
    if any_dash(words) {
        return Ok(None);
    }
    parse_clean(alloc, words)
}

/// The words that stand alone, if there are any.
pub(crate) fn alone<'m, 'a>(own: &'m ArgMatches<'a>) -> Option<&'m [&'a str]>
    ensures { (names : _) (s : Said) → Tells names s (rows_of (found_of own.now)) → option_map (λ v. texts v.now) result ≡ alone_of s.alone }
{
    own.get_strs("rest")
}

/// The text of an option.
pub(crate) fn option_text<'m, 'a>(own: &'m ArgMatches<'a>, name: &str) -> Option<&'a str>
    ensures { (names : _) (s : Said) → Tells names s (rows_of (found_of own.now)) → is_name names name.now ≡ true
        → option_copied result ≡ lookup (bytes_eq name.now) s.options }
{
    own.get_str(name)
}
