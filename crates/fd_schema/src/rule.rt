/// A level of a rule.
#[derive(Clone, Copy, Debug)]
pub(crate) enum Level {
    /// What names a dataset.
    Dataset,
    /// What names an index of it.
    Index,
    /// What names a field in the index.
    Datum,
}

/// The version of a schema.
#[derive(Clone, Copy, Debug)]
pub(crate) enum Version {
    /// `number` and `stat` have no meaning.
    One,
    /// They have.
    Two,
}

/// What a rule wants of a name.
#[derive(Debug, Drop)]
pub(crate) enum Want {
    /// A key has it.
    Needed,
    /// A key may have it.
    Optional,
    /// A key has it, with one of these values.
    OneOf(Vec<String>),
}

/// A name of a rule.
#[derive(Debug, Drop)]
pub(crate) struct Item {
    pub(crate) level: Level,
    pub(crate) name: String,
    pub(crate) want: Want,
}

/// A rule: the version of its schema, and its names from left to right.
#[derive(Debug, Drop)]
pub(crate) struct Rule {
    pub(crate) version: Version,
    pub(crate) items: Vec<Item>,
}
