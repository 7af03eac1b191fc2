ghost use Rattle.std.specs.{Prelude.{◌≡◌, ◌<◌, ◌≤◌, ◌+◌, ◌-◌, ◌^◌, ◌++◌, ◌∷◌, [], length, nat_le, true, IsTrue, IfOk, OnOk, OnErr, Some, None, slice_get, string_bytes}, Option.{option_copied}};
ghost use Rattle.fd_spelling.specs.Names.{is_name, is_value};
ghost use Rattle.fd_key.specs.{Pairs.{with_pair, text_of, key_text, pair_text}, Given.{are_reserved}, Values.{value_text}};

use crate::given::Given;
use crate::span::{Span, in_place, value_at};
use crate::value::{Value, push_value};
use arrayvec::ArrayString;
use fd_bytes::NoMemory;
use indexmap::IndexMap;
use std::alloc::Global;
use std::marker::Model;

/// So many bytes of values have room in a new key, and so many names.
const BYTES: usize = 128;

const NAMES: usize = 18;

/// Names and their texts, in the order in which they came, each name once. The texts stand in one, and a name stands in
/// place, so that a key of a message asks for memory when it is made, and mostly not again.
#[derive(Drop)]
pub struct Key {
    values: String,
    spans: IndexMap<ArrayString<16>, Span>,
}

impl Model for Key {
    ghost use Rattle.std.specs.Prelude.{List, string_bytes};
    ghost use Rattle.fd_key.specs.{Pairs.{Pair}, Spans.{AreKept, pairs_at}};

    ghost Value = { List Pair };

    ghost view = { λ k. pairs_at (string_bytes k.values) k.spans.entries };

    ghost invariant = { λ k. AreKept (string_bytes k.values) k.spans.entries };
}

impl Key {
    /// The empty key.
    pub fn new(alloc: Global) -> Result<Key, NoMemory>
        ensures { IfOk result (λ k. k ≡ []) }
    {
        let values = String::with_capacity(alloc, BYTES)?;
        let spans = IndexMap::with_capacity(alloc, NAMES)?;
        Ok(Key { values, spans })
    }

    /// Takes all pairs out. The room for them stays.
    pub fn clear(&mut self)
        ensures { self.new ≡ [] }
    {
        self.values.clear();
        self.spans.clear();
    }

    /// The number of pairs.
    pub fn len(&self) -> u32
        ensures { result ≡ length self.now }
    {
        self.spans.len() as u32
    }

    /// The text of a name, which is in lower case.
    pub fn get(&self, name: &str) -> Option<&str>
        ensures { option_copied result ≡ text_of self.now name.now }
    {
        let values = self.values.as_str();
        if name.len() > 16 {
            return None;
        }
        let short = in_place(name);
        match self.spans.get_full(&short) {
            Some((_place, _name, span)) => Some(value_at(values, span)),
            None => None,
        }
    }

    /// The name and the text at a place, from 0.
    pub fn pair(&self, i: u32) -> (&str, &str)
        requires { i < length self.now }
        ensures { slice_get self.now i ≡ Some (result.0.now, result.1.now) }
    {
        self.short_pair(i)
    }

    /// The same, and that the name fits its place.
    pub(crate) fn short_pair(&self, i: u32) -> (&str, &str)
        requires { i < length self.now }
        ensures pair { slice_get self.now i ≡ Some (result.0.now, result.1.now) }
        ensures name { length result.0.now ≤ 16 }
    {
        match self.spans.get_index(i as usize) {
            Some((name, span)) => (name.as_str(), value_at(self.values.as_str(), span)),
            None => ("", ""),
        }
    }

    /// Adds the pair at the end, or puts the text in place of the one that the name has. After `NoMemory` nothing has
    /// changed.
    #[tactic(auto, using(crate::proofs::SpanLaws::name_fits))]
    pub fn set(&mut self, _alloc: Global, name: &str, text: &str) -> Result<(), NoMemory>
        requires name { IsTrue (is_name name.now) }
        requires value { IsTrue (is_value text.now) }
        requires room { length self.old < 2 ^ 32 - 1 }
        ensures ok { OnOk result (self.new ≡ with_pair self.old name.now text.now) }
        ensures err { OnErr result (self.new ≡ self.old) }
    {
        self.put(name, text)
    }

    /// The same for any name that fits its place, and any text.
    pub(crate) fn put(&mut self, name: &str, text: &str) -> Result<(), NoMemory>
        requires room { length self.old < 2 ^ 32 - 1 }
        requires fits { length name.now ≤ 16 }
        ensures ok { OnOk result (self.new ≡ with_pair self.old name.now text.now) }
        ensures err { OnErr result (self.new ≡ self.old) }
        ensures short { OnOk result (length (key_text self.new) ≤ length (key_text self.old) + length name.now + length text.now + 2) }
    {
        let start = self.values.len();
        self.values.push_str(text)?;
        let end = self.values.len();
        self.spans.insert(in_place(name), Span { start, end })?;
        Ok(())
    }

    /// The same with a value that isn't spelled yet, which is written behind the others. After `NoMemory` the key is as it was, or empty.
    pub(crate) fn spell(&mut self, name: &str, value: &Value) -> Result<(), NoMemory>
        requires room { length self.old < 2 ^ 32 - 1 }
        requires fits { length name.now ≤ 16 }
        ensures ok { OnOk result (self.new ≡ with_pair self.old name.now (value_text value.now)) }
        ensures short { OnOk result (length (key_text self.new) ≤ length (key_text self.old) + length name.now + length (value_text value.now) + 2) }
    {
        let start = self.values.len();
        match push_value(&mut self.values, value) {
            Ok(()) => {}
            Err(refused) => {
                self.values.clear();
                self.spans.clear();
                return Err(refused);
            }
        }
        let end = self.values.len();
        self.spans.insert(in_place(name), Span { start, end })?;
        Ok(())
    }

    /// Adds a pair whose name it doesn't have.
    pub(crate) fn add(&mut self, name: &str, text: &str) -> Result<(), NoMemory>
        requires room { length self.old < 2 ^ 32 - 1 }
        requires fits { length name.now ≤ 16 }
        requires other { text_of self.old name.now ≡ None }
        ensures pair { OnOk result (self.new ≡ self.old ++ (name.now, text.now) ∷ []) }
        ensures short { OnOk result (length (key_text self.new) ≤ length (key_text self.old) + length name.now + length text.now + 2) }
    {
        self.put(name, text)
    }

    /// Adds the given pairs to those of a message.
    pub(crate) fn append(&mut self, given: &Given) -> Result<(), NoMemory>
        requires room { length (key_text self.old) ≤ 2 ^ 31 }
        requires own { are_reserved self.old ≡ true }
        ensures pairs { OnOk result (self.new ≡ self.old ++ given.now) }
        ensures short { OnOk result (length (key_text self.new) ≤ length (key_text self.old) + 2 ^ 31) }
    {
        for i in 0..given.len() {
            let (name, text) = given.short_pair(i);
            self.add(name, text)?;
        }
        Ok(())
    }

    /// The pairs as `name=text`, joined by commas.
    pub fn text(&self, alloc: Global) -> Result<String, NoMemory>
        ensures { IfOk result (λ s. string_bytes s ≡ key_text self.now) }
    {
        let n = self.len();
        let names = (n as usize).saturating_mul(18);
        let mut out = String::with_capacity(alloc, self.values.len().saturating_add(names))?;
        if n == 0 {
            return Ok(out);
        }
        let (name, text) = self.pair(0);
        push_pair(&mut out, name, text)?;
        for i in 1..n {
            out.push(',')?;
            let (name, text) = self.pair(i);
            push_pair(&mut out, name, text)?;
        }
        Ok(out)
    }

    /// Tells that this text has at most so many bytes.
    pub fn text_fits(&self, most: u32) -> bool
        ensures { result ≡ nat_le (length (key_text self.now)) most }
    {
        let mut room = most as usize + 1;
        for i in 0..self.len() {
            let (name, text) = self.pair(i);
            let both = name.len().saturating_add(text.len());
            if room < 2 || room - 2 < both {
                return false;
            }
            room -= both + 2;
        }
        true
    }

    /// The length of that text.
    pub(crate) fn text_len(&self) -> usize
        requires { length (key_text self.now) ≤ 2 ^ 32 }
        ensures { result ≡ length (key_text self.now) }
    {
        let mut len = 0;
        for i in 0..self.len() {
            let (name, text) = self.pair(i);
            let both = name.len() + text.len();
            len += both + 2;
        }
        len.saturating_sub(1)
    }
}

/// Appends one pair.
fn push_pair(out: &mut String, name: &str, text: &str) -> Result<(), NoMemory>
    ensures { OnOk result (string_bytes out.new ≡ string_bytes out.old ++ pair_text (name.now, text.now)) }
{
    out.push_str(name)?;
    out.push('=')?;
    out.push_str(text)?;
    Ok(())
}
