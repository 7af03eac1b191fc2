ghost use Rattle.std.specs.Prelude.{◌↔◌, IsTrue};
ghost use Rattle.fd_request.specs.{Limits.{partial_of}, Reading.{GivesKeywords}, Matching.{Matches}};

use crate::fault::RequestFault;
use crate::keyword::Keyword;
use crate::request::keywords_within;
use fd_key::Key;
use std::alloc::Global;
use std::marker::Model;

/// A partial request: names, each with the values that a key may have for it.
#[derive(Debug, Drop)]
pub struct Partial {
    keywords: Vec<Keyword>,
}

impl Model for Partial {
    ghost use Rattle.std.specs.Prelude.{List};
    ghost use Rattle.fd_request.specs.Expansion as expansion;
    ghost use Rattle.fd_request.specs.Keywords.{seen_keywords};

    ghost Value = { List expansion.Keyword };

    ghost view = { λ p. seen_keywords p.keywords.items };
}

impl Partial {
    /// Reads a partial request: `list`, and for each keyword a comma, a name, `=` and values, as a request has them. It may
    /// have any number of values.
    ///
    /// The answer `At` names the first place that is wrong.
    pub fn read(alloc: Global, text: &[u8]) -> Result<Partial, RequestFault>
        ensures { GivesKeywords result (partial_of text.now) }
    {
        let keywords = keywords_within(alloc, b"list", text)?;
        Ok(Partial { keywords })
    }

    /// Tells that a key is one of those asked for: it has each name, with one of the values that are listed for the name. A
    /// partial request without names asks for every key.
    pub fn matches(&self, key: &Key) -> bool
        ensures { IsTrue result ↔ Matches self.now key.now }
    {
        for keyword in &self.keywords {
            if !keyword.admits(key) {
                return false;
            }
        }
        true
    }
}
