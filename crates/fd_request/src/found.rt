// The keywords that were found so far.
ghost use Rattle.std.specs.Prelude.{◌≡◌, ◌++◌, ◌∷◌, [], ◌+◌, IfOk, length};
ghost use Rattle.fd_request.specs.{Grammar.{has_name}, Keywords.{seen_keywords, AreNames}};

use crate::keyword::Keyword;
use fd_bytes::NoMemory;
use std::alloc::Global;
use std::collections::BTreeSet;

/// Keywords in their order, and the set of their names.
#[derive(Drop)]
pub(crate) struct Found {
    pub(crate) keywords: Vec<Keyword>,
    names: BTreeSet<String>,
    ghost same: { AreNames names keywords.items },
}

impl Found {
    /// No keywords.
    pub(crate) fn new(alloc: Global) -> Found
        ensures { result.keywords.items ≡ [] }
    {
        Found {
            keywords: Vec::new(alloc),
            names: BTreeSet::new(alloc),
        }
    }

    /// Tells that one of the keywords has the name.
    pub(crate) fn has(&self, name: &str) -> bool
        ensures { result ≡ has_name (seen_keywords self.now.keywords.items) name.now }
    {
        self.names.contains(name)
    }

    /// The keywords with one more at the end.
    pub(crate) fn with(self, keyword: Keyword) -> Result<Found, NoMemory>
        ensures items { IfOk result (λ f. f.keywords.items ≡ self.keywords.items ++ keyword ∷ []) }
        ensures len { IfOk result (λ f. length f.keywords.items ≡ length self.keywords.items + 1) }
    {
        let Found {
            mut keywords,
            mut names,
        } = self;
        names.insert(keyword.name.clone()?)?;
        keywords.push(keyword)?;
        Ok(Found { keywords, names })
    }
}
