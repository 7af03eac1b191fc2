ghost use Rattle.std.specs.Prelude.{◌≡◌, ◌<◌, ◌≤◌, ◌+◌, [], Some, Ok, Err, IfOk, IfErr, OnOk, true, length, slice_get};
ghost use Rattle.fd_request.specs.{Expansion.{expand}, Grammar.{wrong, TooLong, keywords_of}, Limits.{request_of, within_size}, Keywords.{seen_keywords, differ_after}, Reading.{GivesKeywords}, Requests.{IsPlace, IsFaultOf}, Spelled.{IsSpelled}};

use crate::fault::{RequestFault, RequestKind};
use crate::keyword::Keyword;
use crate::limits::count_of;
use crate::reading::keywords_of;
use fd_bytes::NoMemory;
use fd_key::Key;
use fd_tokens::Refusal;
use std::alloc::Global;
use std::marker::Model;

/// The most bytes of a request.
const BYTES: usize = 65_536;

/// A request: the keys of fields, in an order.
#[derive(Debug, Drop)]
pub struct Request {
    keywords: Vec<Keyword>,
    count: u32,
}

impl Model for Request {
    ghost use Rattle.std.specs.Prelude.{List};
    ghost use Rattle.fd_request.specs.Expansion as expansion;
    ghost use Rattle.fd_request.specs.{Keywords.{seen_keywords}, Requests.{IsRequest}};

    ghost Value = { List expansion.Keyword };

    ghost view = { λ r. seen_keywords r.keywords.items };

    ghost invariant = { λ r. IsRequest r.count (seen_keywords r.keywords.items) };
}

fn too_long() -> RequestFault
    ensures { GivesKeywords (Err result) (wrong 65536 TooLong) }
{
    RequestFault::At {
        at: BYTES as u32,
        kind: RequestKind::TooLong,
    }
}

/// The fault that a refusal is in a text of this size.
fn refused(size: usize, refusal: Refusal<RequestKind>) -> RequestFault
    requires { IsPlace size refusal }
    ensures { IsFaultOf size refusal result }
{
    match refusal {
        Refusal::NoMemory => RequestFault::NoMemory,
        Refusal::At(at, kind) => {
            if BYTES < size && BYTES <= at {
                too_long()
            } else {
                RequestFault::At {
                    at: at as u32,
                    kind,
                }
            }
        }
    }
}

/// The keywords behind a verb in a text that isn't too long, or the first place that is wrong.
pub(crate) fn keywords_within(
    alloc: Global,
    verb: &[u8],
    text: &[u8],
) -> Result<Vec<Keyword>, RequestFault>
    ensures gives { IfOk result (λ v. keywords_of verb.now text.now ≡ Ok (seen_keywords v.items)) }
    ensures small { IfOk result (λ v. length text.now ≤ 65536) }
    ensures differ { IfOk result (λ v. differ_after [] (seen_keywords v.items) ≡ true) }
    ensures few { IfOk result (λ v. length v.items ≤ length text.now + 1) }
    ensures refused { IfErr result (λ e. GivesKeywords (Err e) (within_size (length text.now) (keywords_of verb.now text.now))) }
{
    let keywords = match keywords_of(alloc, verb, text) {
        Ok(keywords) => keywords,
        Err(refusal) => return Err(refused(text.len(), refusal)),
    };
    if BYTES < text.len() {
        return Err(too_long());
    }
    Ok(keywords)
}

impl Request {
    /// Reads a request: `retrieve`, and for each keyword a comma, a name, `=` and values. Values are a list `v/w`, or a range
    /// `a/to/b` or `a/to/b/by/c`, whose step `c` is 1 where it is left out. Spaces, tabs and line feeds stand anywhere between
    /// names, values and marks, and upper-case letters are read as lower-case ones. Each value is brought to its one spelling.
    ///
    /// The answer `At` names the first place that is wrong.
    pub fn read(alloc: Global, text: &[u8]) -> Result<Request, RequestFault>
        ensures { GivesKeywords result (request_of text.now) }
    {
        let keywords = keywords_within(alloc, b"retrieve", text)?;
        match count_of(alloc, text.len(), &keywords) {
            Ok(count) => Ok(Request { keywords, count }),
            Err(refusal) => Err(refused(text.len(), refusal)),
        }
    }

    /// The number of keys: the product of the numbers of values.
    pub fn count(&self) -> u32
        ensures { result ≡ length (expand self.now) }
    {
        self.count
    }

    /// The key at a place, from 0. The last keyword is the fastest, and a value that comes again gives a key again. Each of its
    /// names comes once, and each text is a value.
    pub fn key(&self, alloc: Global, i: u32) -> Result<Key, NoMemory>
        requires { i < length (expand self.now) }
        ensures key { IfOk result (λ k. slice_get (expand self.now) i ≡ Some k) }
        ensures spelled { IfOk result IsSpelled }
    {
        let mut key = Key::new(alloc)?;
        self.key_into(&mut key, alloc, i)?;
        Ok(key)
    }

    /// The same, which is put into a key in place of its pairs, so that the room for these is used again. After `NoMemory` the
    /// key has any pairs.
    pub fn key_into(&self, key: &mut Key, alloc: Global, i: u32) -> Result<(), NoMemory>
        requires { i < length (expand self.now) }
        ensures key { OnOk result (slice_get (expand self.now) i ≡ Some key.new) }
        ensures spelled { OnOk result (IsSpelled key.new) }
    {
        put_key(key, alloc, &self.keywords, self.count, i)
    }
}

/// Puts the key with a number in place of the pairs of this one, by division.
fn put_key(
    key: &mut Key,
    alloc: Global,
    keywords: &[Keyword],
    count: u32,
    number: u32,
) -> Result<(), NoMemory>
    requires count { count ≡ length (expand (seen_keywords keywords.now)) }
    requires differ { differ_after [] (seen_keywords keywords.now) ≡ true }
    requires few { length keywords.now ≤ 65537 }
    requires within { number < count }
    ensures key { OnOk result (slice_get (expand (seen_keywords keywords.now)) number ≡ Some key.new) }
    ensures spelled { OnOk result (IsSpelled key.new) }
{
    key.clear();
    let mut block = u64::from(count);
    let mut rest = u64::from(number);
    for keyword in keywords {
        block /= keyword.values.count();
        let text = keyword.values.text(alloc, rest / block)?;
        key.set(alloc, keyword.name.as_str(), text.as_str())?;
        rest %= block;
    }
    Ok(())
}
