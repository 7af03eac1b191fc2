// The values of a message, before they are spelled.
ghost use Rattle.std.specs.Prelude.{◌≡◌, ◌++◌, OnOk, string_bytes};
ghost use Rattle.fd_key.specs.Values.{level_of, both_of, value_text};

use fd_bytes::NoMemory;
use fd_spelling::{
    push_date, push_levtype, push_number, push_param, push_scaled, push_step, push_time,
};

/// The decimal value × 10 ^ -factor.
#[derive(Clone, Copy, Debug)]
pub(crate) struct Scaled {
    pub(crate) factor: i8,
    pub(crate) value: i32,
}

/// The values of the two surfaces of a field, of which one may be missing.
#[derive(Clone, Copy, Debug)]
pub(crate) enum Levels {
    First(Scaled),
    Second(Scaled),
    Both(Scaled, Scaled),
}

/// A value of a message.
#[derive(Clone, Copy, Debug)]
pub(crate) enum Value {
    Number(u32),
    Date {
        year: u32,
        month: u32,
        day: u32,
    },
    Time {
        hour: u32,
        minute: u32,
        second: u32,
    },
    Param {
        discipline: u8,
        category: u8,
        number: u8,
    },
    Levtype {
        first: u8,
        second: u8,
    },
    Surfaces(Levels),
    Step {
        negative: bool,
        number: u64,
        unit: u8,
    },
}

/// Appends the text of a decimal.
fn push_level(out: &mut String, level: Scaled) -> Result<(), NoMemory>
    ensures { OnOk result (string_bytes out.new ≡ string_bytes out.old ++ level_of level) }
{
    push_scaled(out, i64::from(level.factor), i64::from(level.value))
}

/// Appends the values of two surfaces.
fn push_levels(out: &mut String, levels: &Levels) -> Result<(), NoMemory>
    ensures { OnOk result (string_bytes out.new ≡ string_bytes out.old ++ both_of levels.now) }
{
    match levels {
        Levels::First(first) => push_level(out, *first),
        Levels::Second(second) => {
            out.push('_')?;
            push_level(out, *second)
        }
        Levels::Both(first, second) => {
            push_level(out, *first)?;
            out.push('_')?;
            push_level(out, *second)
        }
    }
}

/// Appends the one spelling of a value.
pub(crate) fn push_value(out: &mut String, value: &Value) -> Result<(), NoMemory>
    ensures { OnOk result (string_bytes out.new ≡ string_bytes out.old ++ value_text value.now) }
{
    match value {
        Value::Number(number) => push_number(out, *number),
        Value::Date { year, month, day } => push_date(out, *year, *month, *day),
        Value::Time {
            hour,
            minute,
            second,
        } => push_time(out, *hour, *minute, *second),
        Value::Param {
            discipline,
            category,
            number,
        } => push_param(out, *discipline, *category, *number),
        Value::Levtype { first, second } => push_levtype(out, *first, *second),
        Value::Surfaces(levels) => push_levels(out, levels),
        Value::Step {
            negative,
            number,
            unit,
        } => push_step(out, *negative, *number, *unit),
    }
}
