// Keywords, from the first token to the last.
ghost use Rattle.std.specs.Prelude.{◌≡◌, ◌<◌, ◌≤◌, ◌+◌, [], ◌∷◌, ℕ, IsTrue, true, false, IfOk, option_map, Option, length, drop, string_bytes};
ghost use Rattle.fd_spelling.specs.Names.{is_name, is_value, lower};
ghost use Rattle.fd_tokens.specs.Tokens.{view, views, parts, tokens};
ghost use Rattle.fd_spelling.specs.Texts.{texts};
ghost use Rattle.fd_request.specs.{Ranges.{range_of}, Grammar.{marks, each_of, verb_of, value_of, value_in, values_of, range_or, word_texts, behind_words, led, has_name, behind_name, name_of, keyword_of, keyword_in, request_in, keywords_of}, Seen.{seen_word, seen_words}, Values.{seen_values, AreValues}, Keywords.{seen_keyword, seen_keywords, differ_after}, Reading.{Gives}};

use crate::fault::RequestKind;
use crate::found::Found;
use crate::keyword::Keyword;
use crate::values::{Values, range_of};
use crate::word::{
    Word, begins, behind_words, first_place, has_range_word, led_place, past, words_of,
};
use fd_bytes::NoMemory;
use fd_key::is_name;
use fd_spelling::{name_end, name_text, spelled};
use fd_tokens::{Refusal, Token, part_from, tokens_of};
use std::alloc::Global;

/// A value in its one spelling.
#[tactic(auto, unfolding(crate::specs::Grammar::value_of))]
fn value(alloc: Global, name: &str, word: &Word) -> Result<String, Refusal<RequestKind>>
    ensures gives { Gives string_bytes result (value_of name.now (seen_word word.now)) }
    ensures value { IfOk result (λ s. IsTrue (is_value (string_bytes s))) }
{
    let Some(value) = spelled(alloc, name, word.text)? else {
        return Err(Refusal::At(word.at, RequestKind::Value));
    };
    match word.behind {
        None => Ok(value),
        Some(place) => Err(Refusal::At(place, RequestKind::Pair)),
    }
}

/// Values with slashes between them.
fn listed(alloc: Global, name: &str, words: &[Word]) -> Result<Vec<String>, Refusal<RequestKind>>
    requires { 0 < length words.now }
    ensures gives { Gives (λ v. texts v.items) result (each_of (value_in name.now) [] (seen_words words.now)) }
    ensures values { IfOk result (λ v. AreValues (texts v.items)) }
{
    let mut values = Vec::new(alloc);
    for word in words {
        match value(alloc, name, word) {
            Ok(value) => values.push(value)?,
            Err(refusal) => return Err(refusal),
        }
    }
    Ok(values)
}

/// The values of a range.
fn ranged(
    alloc: Global,
    name: &str,
    at: usize,
    words: &[Word],
) -> Result<Values, Refusal<RequestKind>>
    ensures gives { Gives seen_values result (range_or (range_of name.now (word_texts (seen_words words.now))) at (behind_words (seen_words words.now))) }
    ensures values { IfOk result (λ v. AreValues (seen_values v)) }
{
    let Some(range) = range_of(alloc, name, words)? else {
        return Err(Refusal::At(at, RequestKind::Range));
    };
    match behind_words(words) {
        None => Ok(Values::Stepped(range)),
        Some(place) => Err(Refusal::At(place, RequestKind::Pair)),
    }
}

/// The values of a name, the first of which begins at this place.
#[tactic(auto, unfolding(crate::specs::Grammar::values_of))]
fn values(
    alloc: Global,
    name: &str,
    at: usize,
    words: &[Word],
) -> Result<Values, Refusal<RequestKind>>
    requires { 0 < length words.now }
    ensures gives { Gives seen_values result (values_of name.now at (seen_words words.now)) }
    ensures values { IfOk result (λ v. AreValues (seen_values v)) }
{
    if has_range_word(words) {
        return ranged(alloc, name, at, words);
    }
    match listed(alloc, name, words) {
        Ok(texts) => Ok(Values::Listed(texts)),
        Err(refusal) => Err(refusal),
    }
}

/// What a token says that stands behind a name, with the tokens behind it: `=`, and values.
#[tactic(auto, unfolding(crate::specs::Grammar::behind_name))]
fn given<'s, 't>(
    alloc: Global,
    name: &str,
    stop: &'s Token<'t>,
    first: &Token<'t>,
    others: &'s [Token<'t>],
) -> Result<Values, Refusal<RequestKind>>
    ensures gives { Gives seen_values result (behind_name name.now (view stop.now) (view first.now ∷ views others.now)) }
    ensures values { IfOk result (λ v. AreValues (seen_values v)) }
{
    if !begins(b'=', first.text) {
        return Err(Refusal::At(first.at, RequestKind::Pair));
    }
    let rest = past(1, first);
    let words = words_of(alloc, stop, rest, others)?;
    values(alloc, name, led_place(stop, rest, others), &words)
}

/// What stands behind a name: what is left of its token, and the tokens behind it.
#[tactic(auto, unfolding(crate::specs::Grammar::behind_name))]
fn behind_name<'s, 't>(
    alloc: Global,
    name: &str,
    stop: &'s Token<'t>,
    rest: Option<Token<'t>>,
    tokens: &'s [Token<'t>],
) -> Result<Values, Refusal<RequestKind>>
    ensures gives { Gives seen_values result (behind_name name.now (view stop.now) (led (option_map view rest.entry) (views tokens.now))) }
    ensures values { IfOk result (λ v. AreValues (seen_values v)) }
{
    match rest {
        Some(first) => given(alloc, name, stop, &first, tokens),
        None => match tokens {
            [] => Err(Refusal::At(stop.at, RequestKind::Pair)),
            [first, others @ ..] => given(alloc, name, stop, first, others),
        },
    }
}

/// The name that a token begins with, behind these keywords.
#[tactic(auto, unfolding(crate::specs::Grammar::name_of))]
fn name_of(alloc: Global, before: &Found, token: &Token) -> Result<String, Refusal<RequestKind>>
    ensures gives { Gives string_bytes result (name_of (seen_keywords before.now.keywords.items) (view token.now)) }
    ensures name { IfOk result (λ s. is_name (string_bytes s) ≡ true) }
    ensures new { IfOk result (λ s. has_name (seen_keywords before.now.keywords.items) (string_bytes s) ≡ false) }
{
    let end = name_end(token.text);
    let (front, _) = token.text.split_at(end);
    if !is_name(front) {
        return Err(Refusal::At(token.at, RequestKind::Pair));
    }
    let name = String::from_str(alloc, name_text(front))?;
    if before.has(name.as_str()) {
        return Err(Refusal::At(token.at, RequestKind::Repeated(name)));
    }
    Ok(name)
}

/// A keyword, behind these.
#[tactic(auto, unfolding(crate::specs::Grammar::keyword_of))]
fn keyword<'s, 't>(
    alloc: Global,
    before: &Found,
    stop: &'s Token<'t>,
    tokens: &'s [Token<'t>],
) -> Result<Keyword, Refusal<RequestKind>>
    ensures gives { Gives seen_keyword result (keyword_of (seen_keywords before.now.keywords.items) (view stop.now) (views tokens.now)) }
    ensures new { IfOk result (λ k. has_name (seen_keywords before.now.keywords.items) (string_bytes k.name) ≡ false) }
{
    let [first, others @ ..] = tokens else {
        return Err(Refusal::At(stop.at, RequestKind::Pair));
    };
    let name = name_of(alloc, before, first)?;
    let rest = past(name.len(), first);
    let values = behind_name(alloc, name.as_str(), stop, rest, others)?;
    Ok(Keyword { name, values })
}

/// The keywords from a token on.
fn keywords<'s, 't>(
    alloc: Global,
    stop: &'s Token<'t>,
    tokens: &'s [Token<'t>],
    first: usize,
) -> Result<Vec<Keyword>, Refusal<RequestKind>>
    requires { first ≤ length tokens.now }
    ensures gives { Gives (λ v. seen_keywords v.items) result (each_of keyword_in [] (parts 44 (view stop.now) (views (drop first tokens.now)))) }
    ensures differ { IfOk result (λ v. differ_after [] (seen_keywords v.items) ≡ true) }
    ensures few { IfOk result (λ v. length v.items ≤ length tokens.now + 1) }
{
    let mut found = Found::new(alloc);
    let mut from = first;
    'parts: loop {
        let (inside, behind, next) = part_from(b',', stop, tokens, from);
        match keyword(alloc, &found, behind, inside) {
            Ok(keyword) => found = found.with(keyword)?,
            Err(refusal) => return Err(refusal),
        }
        match next {
            None => return Ok(found.keywords),
            Some(place) => from = place,
        }
    }
}

/// The place behind the verb where something stands, if anything does.
#[tactic(auto, unfolding(crate::specs::Grammar::verb_of))]
fn verb_of(
    verb: &[u8],
    stop: &Token,
    tokens: &[Token],
) -> Result<Option<usize>, Refusal<RequestKind>>
    ensures { Gives (λ (o : Option ℕ). o) result (verb_of verb.now (view stop.now) (views tokens.now)) }
{
    let [first, others @ ..] = tokens else {
        return Err(Refusal::At(stop.at, RequestKind::Verb));
    };
    let end = name_end(first.text);
    let (front, _) = first.text.split_at(end);
    if front != verb {
        return Err(Refusal::At(first.at, RequestKind::Verb));
    }
    match past(end, first) {
        Some(rest) => Ok(Some(rest.at)),
        None => Ok(first_place(others)),
    }
}

/// The keywords behind this verb.
fn request_in<'s, 't>(
    alloc: Global,
    verb: &[u8],
    stop: &'s Token<'t>,
    tokens: &'s [Token<'t>],
) -> Result<Vec<Keyword>, Refusal<RequestKind>>
    ensures gives { Gives (λ v. seen_keywords v.items) result (request_in verb.now (parts 44 (view stop.now) (views tokens.now))) }
    ensures differ { IfOk result (λ v. differ_after [] (seen_keywords v.items) ≡ true) }
    ensures few { IfOk result (λ v. length v.items ≤ length tokens.now + 1) }
{
    let (inside, behind, next) = part_from(b',', stop, tokens, 0);
    match verb_of(verb, behind, inside) {
        Err(refusal) => Err(refusal),
        Ok(other) => match other {
            Some(place) => Err(Refusal::At(place, RequestKind::Pair)),
            None => match next {
                Some(place) => keywords(alloc, stop, tokens, place),
                None => Ok(Vec::new(alloc)),
            },
        },
    }
}

/// The text in lower case.
fn lower(alloc: Global, text: &[u8]) -> Result<Vec<u8>, NoMemory>
    ensures { IfOk result (λ v. v.items ≡ lower text.now) }
{
    let mut lowered = text.to_vec(alloc)?;
    lowered.as_mut_slice().make_ascii_lowercase();
    Ok(lowered)
}

/// The marks of requests.
fn marks() -> &'static [u8]
    ensures { result.now ≡ marks }
{
    b",/"
}

/// The keywords of a text with this verb, or the first place that is wrong.
#[tactic(auto, unfolding(crate::specs::Grammar::keywords_of))]
pub(crate) fn keywords_of(
    alloc: Global,
    verb: &[u8],
    text: &[u8],
) -> Result<Vec<Keyword>, Refusal<RequestKind>>
    ensures gives { Gives (λ v. seen_keywords v.items) result (keywords_of verb.now text.now) }
    ensures differ { IfOk result (λ v. differ_after [] (seen_keywords v.items) ≡ true) }
    ensures few { IfOk result (λ v. length v.items ≤ length text.now + 1) }
{
    let lowered = lower(alloc, text)?;
    let tokens = tokens_of(alloc, marks(), &lowered)?;
    let end = Token {
        at: text.len(),
        text: b"",
    };
    request_in(alloc, verb, &end, &tokens)
}
