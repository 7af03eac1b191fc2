ghost use Rattle.std.specs.Prelude.{◌≡◌};
ghost use Rattle.fd_spelling.specs.Names.{meaning_of};

/// What a name stands for.
#[derive(Clone, Copy, Debug, PartialEq, Eq)]
pub enum Meaning {
    /// The originating centre.
    Centre,
    /// The day of the reference time.
    Date,
    /// The time of day of the reference time.
    Time,
    /// The type of processed data.
    ProcessedType,
    /// The parameter.
    Param,
    /// The types of the surfaces.
    Levtype,
    /// The values of the surfaces.
    Levelist,
    /// The forecast time.
    Step,
    /// The number of a member of an ensemble.
    Number,
    /// The statistical processes, each with the length of its time range.
    Stat,
    /// A name that only writers give.
    Other,
}

/// The meaning behind the name that a text is, or another.
macro_rules! named {
    ($text:expr, $($name:expr => $meaning:ident),+; $other:ident) => {
        $(if $text == $name { Meaning::$meaning } else)+ { Meaning::$other }
    };
}

/// What a name in lower case stands for.
pub fn meaning_of(name: &str) -> Meaning
    ensures { result ≡ meaning_of name.now }
{
    named!(
        name,
        "centre" => Centre,
        "date" => Date,
        "time" => Time,
        "type" => ProcessedType,
        "param" => Param,
        "levtype" => Levtype,
        "levelist" => Levelist,
        "step" => Step,
        "number" => Number,
        "stat" => Stat;
        Other
    )
}
