ghost use Rattle.std.specs.Prelude.{◌≡◌, true, string_bytes};
ghost use Rattle.fd_spelling.specs.Names.{is_name};
ghost use Rattle.fd_request.specs.Values.{seen_values, AreValues};

use crate::values::Values;

/// A name with its values.
#[derive(Debug, Drop)]
pub(crate) struct Keyword {
    pub(crate) name: String,
    pub(crate) values: Values,
    ghost name_is: { is_name (string_bytes name) ≡ true },
    ghost values_are: { AreValues (seen_values values) },
}
