// The key of a message: what its sections say, and then the given pairs.
ghost use Rattle.std.specs.{Prelude.{◌≡◌, ◌≤◌, ◌<◌, ◌+◌, ◌-◌, ◌^◌, ◌++◌, length, true, codes, OnOk, string_bytes}, Fmt.{decimal}};
ghost use Rattle.fd_templates.specs.Product.{Fits};
ghost use Rattle.fd_sections.specs.Parts.{sections_of};
ghost use Rattle.fd_spelling.specs.{Canonical.{param_text}, Levels.{levtype_text}, Steps.{step_text}};
ghost use Rattle.fd_key.specs.{Pairs.{with_pair, with_pair_if, key_text}, Given.{are_reserved}, Fields.{levels_of}, Values.{value_text}, Keys.{key_of, FillsKey, GivesKey, message_pairs, discipline_of, dated_pairs, has_date, date_of, time_of, param_in, levtype_of, step_of, number_of, stat_of, origin_pairs, field_pairs, pairs_in}};

use crate::fault::KeyFault;
use crate::fields::{levels_of, ranges_text};
use crate::given::Given;
use crate::key::Key;
use crate::value::Value;
use fd_bytes::NoMemory;
use fd_sections::Message;
use fd_spelling::{is_date, is_time};
use fd_templates::{AnyFault, AnyProduct, Ensemble, Ident, Interval, Product, TemplateFault};
use std::alloc::Global;

/// The key of a message: `centre`, `date`, `time`, `type`, `param`, `levtype`, `levelist`, `step`, `number` and `stat` of its
/// sections, and then the given pairs in their order. A key has no `levelist` where neither surface has a value, no `number`
/// where the field is of no ensemble or the number is missing, and no `stat` where the field is at a point in time.
///
/// `Product` comes where the template of section 4 is none of 4.0, 4.1, 4.8 and 4.11, `ProductLength` where section 4 is
/// shorter than its template, `BadDate` where the reference time is no day of the years 0 to 9999 or no time of a day, and `KeyTooLong`
/// where the key's text has more than 255 bytes, in this order.
pub fn key_of(alloc: Global, message: &Message<'_>, given: &Given) -> Result<Key, KeyFault>
    ensures { GivesKey result (key_of (sections_of message.now) given.now) }
{
    let mut key = Key::new(alloc)?;
    key_into(&mut key, alloc, message, given)?;
    Ok(key)
}

/// The same, which is put into a key in place of its pairs, so that the room for these is used again. After a refusal the key has any
/// pairs.
#[tactic(auto, unfolding(crate::specs::Keys::key_of, crate::specs::Keys::within_limit))]
pub fn key_into(
    key: &mut Key,
    alloc: Global,
    message: &Message<'_>,
    given: &Given,
) -> Result<(), KeyFault>
    ensures { FillsKey key.new result (key_of (sections_of message.now) given.now) }
{
    put_message(key, alloc, message)?;
    key.append(given)?;
    let len = key.text_len();
    if len > 255 {
        return Err(KeyFault::KeyTooLong { len: len as u32 });
    }
    Ok(())
}

/// Puts the pairs that a message has of its own in place of those of a key.
#[tactic(auto, unfolding(crate::specs::Keys::message_pairs))]
fn put_message(key: &mut Key, alloc: Global, message: &Message<'_>) -> Result<(), KeyFault>
    ensures key { FillsKey key.new result (message_pairs (sections_of message.now)) }
    ensures short { OnOk result (length (key_text key.new) ≤ 9000) }
    ensures own { OnOk result (are_reserved key.new ≡ true) }
{
    match AnyProduct::read(alloc, message) {
        Ok(product) => put_dated(
            key,
            alloc,
            discipline(message),
            &Ident::read(message),
            &product,
        ),
        Err(AnyFault::Template(TemplateFault::Other(template))) => Err(KeyFault::Product(template)),
        Err(AnyFault::Template(TemplateFault::BadLength { said })) => {
            Err(KeyFault::ProductLength { said })
        }
        Err(AnyFault::NoMemory) => Err(KeyFault::NoMemory),
    }
}

/// The discipline of a message.
#[tactic(auto, unfolding(fd_templates::specs::Octets::number))]
fn discipline(message: &Message<'_>) -> u8
    ensures { result ≡ discipline_of (sections_of message.now).indicator }
{
    message.indicator[6]
}

/// Puts the pairs of sections 0, 1 and 4 in place of those of a key, where the reference time is a day and a time of day.
fn put_dated(
    key: &mut Key,
    alloc: Global,
    discipline: u8,
    ident: &Ident,
    product: &AnyProduct,
) -> Result<(), KeyFault>
    requires { Fits product.now.base }
    ensures key { FillsKey key.new result (dated_pairs discipline ident.now product.now) }
    ensures short { OnOk result (length (key_text key.new) ≤ 9000) }
    ensures own { OnOk result (are_reserved key.new ≡ true) }
{
    if !has_date(ident) {
        return Err(KeyFault::BadDate);
    }
    put_own(key, alloc, discipline, ident, product)?;
    Ok(())
}

/// Puts the pairs of section 1 in place of those of a key.
fn put_origin(key: &mut Key, ident: &Ident) -> Result<(), NoMemory>
    ensures pairs { OnOk result (key.new ≡ origin_pairs ident.now) }
    ensures short { OnOk result (length (key_text key.new) ≤ 150) }
{
    key.clear();
    put_number(key, "centre", u32::from(ident.centre))?;
    let date = date_of(ident);
    key.spell("date", &date)?;
    let time = time_of(ident);
    key.spell("time", &time)?;
    put_number(key, "type", u32::from(ident.data_type))?;
    Ok(())
}

/// The value of these numbers of a parameter.
fn param_value(discipline: u8, category: u8, number: u8) -> Value
    ensures text { value_text result ≡ param_text discipline category number }
    ensures short { length (value_text result) ≤ 32 }
{
    Value::Param {
        discipline,
        category,
        number,
    }
}

/// The quantity, by its discipline, category and number.
fn param_in(discipline: u8, product: &Product) -> Value
    ensures text { value_text result ≡ param_in discipline product.now }
    ensures short { length (value_text result) ≤ 32 }
{
    param_value(discipline, product.category, product.parameter)
}

/// The value of the types of two surfaces.
fn levtype_value(first: u8, second: u8) -> Value
    ensures text { value_text result ≡ levtype_text first second }
    ensures short { length (value_text result) ≤ 32 }
{
    Value::Levtype { first, second }
}

/// The types of the surfaces.
fn levtype_of(product: &Product) -> Value
    ensures text { value_text result ≡ levtype_of product.now }
    ensures short { length (value_text result) ≤ 32 }
{
    levtype_value(product.first_surface_type, product.second_surface_type)
}

/// Puts the parameter and the types of the surfaces.
fn put_field(key: &mut Key, discipline: u8, product: &Product) -> Result<(), NoMemory>
    requires { length key.old < 100 }
    ensures pairs { OnOk result (key.new ≡ with_pair (with_pair key.old (codes "param") (param_in discipline product.now)) (codes "levtype") (levtype_of product.now)) }
    ensures short { OnOk result (length (key_text key.new) ≤ length (key_text key.old) + 100) }
{
    let param = param_in(discipline, product);
    key.spell("param", &param)?;
    let levtype = levtype_of(product);
    key.spell("levtype", &levtype)
}

/// Puts the values of the surfaces, if there are any.
fn put_levels(key: &mut Key, product: &Product) -> Result<(), NoMemory>
    requires room { length key.old < 100 }
    requires fits { Fits product.now }
    ensures pairs { OnOk result (key.new ≡ with_pair_if key.old (codes "levelist") (levels_of product.now)) }
    ensures short { OnOk result (length (key_text key.new) ≤ length (key_text key.old) + 710) }
{
    match levels_of(product) {
        Some(levels) => key.spell("levelist", &Value::Surfaces(levels)),
        None => Ok(()),
    }
}

/// Puts the pairs of sections 0, 1 and 4 in place of those of a key.
fn put_own(
    key: &mut Key,
    alloc: Global,
    discipline: u8,
    ident: &Ident,
    product: &AnyProduct,
) -> Result<(), NoMemory>
    requires { Fits product.now.base }
    ensures pairs { OnOk result (key.new ≡ pairs_in discipline ident.now product.now) }
    ensures short { OnOk result (length (key_text key.new) ≤ 9000) }
    ensures own { OnOk result (are_reserved key.new ≡ true) }
{
    put_base(key, discipline, ident, &product.base)?;
    put_number_of(key, &product.ensemble)?;
    put_stat(alloc, key, &product.interval)?;
    Ok(())
}

/// Puts the pairs of sections 0, 1 and 4 that each of the templates has in place of those of a key.
fn put_base(key: &mut Key, discipline: u8, ident: &Ident, product: &Product) -> Result<(), NoMemory>
    requires { Fits product.now }
    ensures pairs { OnOk result (key.new ≡ origin_pairs ident.now ++ field_pairs discipline product.now) }
    ensures short { OnOk result (length (key_text key.new) ≤ 1100) }
    ensures few { OnOk result (length key.new ≤ 8) }
{
    put_origin(key, ident)?;
    put_field(key, discipline, product)?;
    put_levels(key, product)?;
    let step = step_of(product);
    key.spell("step", &step)?;
    Ok(())
}

/// Puts the number of the member of an ensemble, unless it is missing.
#[tactic(auto, using(crate::proofs::PairLaws::with_pair_longer))]
fn put_number_of(key: &mut Key, ensemble: &Option<Ensemble>) -> Result<(), NoMemory>
    requires { length key.old < 100 }
    ensures pairs { OnOk result (key.new ≡ with_pair_if key.old (codes "number") (number_of ensemble.now)) }
    ensures short { OnOk result (length (key_text key.new) ≤ length (key_text key.old) + 20) }
    ensures few { OnOk result (length key.new ≤ length key.old + 1) }
{
    match ensemble {
        Some(ensemble) => {
            if ensemble.number == 255 {
                return Ok(());
            }
            put_number(key, "number", u32::from(ensemble.number))
        }
        None => Ok(()),
    }
}

/// Puts the statistics over the time ranges of an interval, if there is one.
fn put_stat(alloc: Global, key: &mut Key, interval: &Option<Interval>) -> Result<(), NoMemory>
    requires { length key.old < 100 }
    ensures pairs { OnOk result (key.new ≡ with_pair_if key.old (codes "stat") (stat_of interval.now)) }
    ensures short { OnOk result (length (key_text key.new) ≤ length (key_text key.old) + 7500) }
{
    match interval {
        Some(interval) => {
            let text = ranges_text(alloc, interval.ranges.as_slice())?;
            key.put("stat", text.as_str())
        }
        None => Ok(()),
    }
}

/// Tells that the reference time is a day of the years 0 to 9999 and a time of day.
fn has_date(ident: &Ident) -> bool
    ensures { result ≡ has_date ident.now }
{
    let time = ident.reference_time;
    is_date(
        u32::from(time.year),
        u32::from(time.month),
        u32::from(time.day),
    ) && is_time(
        u32::from(time.hour),
        u32::from(time.minute),
        u32::from(time.second),
    )
}

/// The day of the reference time.
#[tactic(auto, using(fd_spelling::proofs::ShortTexts::date_short))]
fn date_of(ident: &Ident) -> Value
    ensures text { value_text result ≡ date_of ident.now }
    ensures short { length (value_text result) ≤ 8 }
{
    Value::Date {
        year: u32::from(ident.reference_time.year),
        month: u32::from(ident.reference_time.month),
        day: u32::from(ident.reference_time.day),
    }
}

/// The time of day of the reference time.
#[tactic(auto, using(fd_spelling::proofs::ShortTexts::time_short))]
fn time_of(ident: &Ident) -> Value
    ensures text { value_text result ≡ time_of ident.now }
    ensures short { length (value_text result) ≤ 6 }
{
    Value::Time {
        hour: u32::from(ident.reference_time.hour),
        minute: u32::from(ident.reference_time.minute),
        second: u32::from(ident.reference_time.second),
    }
}

/// Puts a number at a name.
#[tactic(auto, using(fd_spelling::proofs::ShortTexts::number_short))]
fn put_number(key: &mut Key, name: &str, number: u32) -> Result<(), NoMemory>
    requires room { length key.old < 2 ^ 32 - 1 }
    requires fits { length name.now ≤ 16 }
    ensures pair { OnOk result (key.new ≡ with_pair key.old name.now (decimal number)) }
    ensures short { OnOk result (length (key_text key.new) ≤ length (key_text key.old) + length name.now + 12) }
{
    key.spell(name, &Value::Number(number))
}

/// The value of a time in units.
fn step_value(negative: bool, number: u32, unit: u8) -> Value
    ensures text { value_text result ≡ step_text negative number unit }
    ensures short { length (value_text result) ≤ 40 }
{
    Value::Step {
        negative,
        number: u64::from(number),
        unit,
    }
}

/// The forecast time.
fn step_of(product: &Product) -> Value
    ensures text { value_text result ≡ step_of product.now }
    ensures short { length (value_text result) ≤ 40 }
{
    let number = product.forecast_time;
    step_value(
        number.is_negative(),
        number.unsigned_abs(),
        product.time_unit,
    )
}
