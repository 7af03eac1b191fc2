// The text of a schema.
ghost use Rattle.std.specs.Prelude.{◌≡◌, ◌++◌, IfOk, OnOk, true, string_bytes};
ghost use Rattle.fd_spelling.specs.Texts.{texts};
ghost use Rattle.fd_schema.specs.{Seen.{seen_want, seen_item, seen_items, seen_rule, seen_rules}, Printed.{values_text, want_text, item_text, level_items_text, rule_text, rules_text, version_line, schema_text}};

use crate::grammar::same_level;
use crate::rule::{Item, Level, Rule, Version, Want};
use fd_bytes::NoMemory;
use std::alloc::Global;

/// Appends values with slashes between them.
#[tactic(auto, unfolding(crate::specs::Printed::values_text))]
fn push_values(out: &mut String, values: &[String]) -> Result<(), NoMemory>
    ensures { OnOk result (string_bytes out.new ≡ string_bytes out.old ++ values_text true (texts values.now)) }
{
    let mut first = true;
    for value in values {
        if !first {
            out.push('/')?;
        }
        first = false;
        out.push_str(value.as_str())?;
    }
    Ok(())
}

/// Appends what stands behind a name.
fn push_want(out: &mut String, want: &Want) -> Result<(), NoMemory>
    ensures { OnOk result (string_bytes out.new ≡ string_bytes out.old ++ want_text (seen_want want.now)) }
{
    match want {
        Want::Needed => Ok(()),
        Want::Optional => {
            out.push('?')?;
            Ok(())
        }
        Want::OneOf(values) => {
            out.push('=')?;
            push_values(out, values)
        }
    }
}

fn push_item(out: &mut String, item: &Item) -> Result<(), NoMemory>
    ensures { OnOk result (string_bytes out.new ≡ string_bytes out.old ++ item_text (seen_item item.now)) }
{
    out.push_str(item.name.as_str())?;
    push_want(out, &item.want)
}

/// Appends the items of a level with commas between them.
#[tactic(auto, unfolding(crate::specs::Printed::level_items_text))]
fn push_level(out: &mut String, level: Level, rule: &[Item]) -> Result<(), NoMemory>
    ensures { OnOk result (string_bytes out.new ≡ string_bytes out.old ++ level_items_text true level (seen_items rule.now)) }
{
    let mut first = true;
    for item in rule {
        if same_level(item.level, level) {
            if !first {
                out.push_str(", ")?;
            }
            first = false;
            push_item(out, item)?;
        }
    }
    Ok(())
}

/// Appends a rule and a line feed.
fn push_rule(out: &mut String, rule: &Rule) -> Result<(), NoMemory>
    ensures { OnOk result (string_bytes out.new ≡ string_bytes out.old ++ rule_text (seen_rule rule.now)) }
{
    out.push('[')?;
    push_level(out, Level::Dataset, &rule.items)?;
    out.push_str(" [")?;
    push_level(out, Level::Index, &rule.items)?;
    out.push_str(" [")?;
    push_level(out, Level::Datum, &rule.items)?;
    out.push_str("]]]\n")?;
    Ok(())
}

/// The line of the version, which is that of the first rule.
fn version_line(rules: &[Rule]) -> &'static str
    ensures { result.now ≡ version_line (seen_rules rules.now) }
{
    match rules {
        [] => "",
        [first, ..] => match first.version {
            Version::One => "",
            Version::Two => "version 2\n",
        },
    }
}

/// Appends rules.
#[tactic(auto, unfolding(crate::specs::Printed::rules_text))]
fn push_rules(out: &mut String, rules: &[Rule]) -> Result<(), NoMemory>
    ensures { OnOk result (string_bytes out.new ≡ string_bytes out.old ++ rules_text (seen_rules rules.now)) }
{
    for rule in rules {
        push_rule(out, rule)?;
    }
    Ok(())
}

/// The text of rules.
#[tactic(auto, unfolding(crate::specs::Printed::schema_text))]
pub(crate) fn text_of(alloc: Global, rules: &[Rule]) -> Result<String, NoMemory>
    ensures { IfOk result (λ s. string_bytes s ≡ schema_text (seen_rules rules.now)) }
{
    let mut out = String::from_str(alloc, version_line(rules))?;
    push_rules(&mut out, rules)?;
    Ok(out)
}
