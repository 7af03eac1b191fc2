// The listed flushes in the order of the table.
ghost use Rattle.std.specs.{Prelude.{◌≡◌, ◌<◌, ◌+◌, ◌-◌, ◌^◌, ◌++◌, ℕ, IfOk, OnOk, filter_map, flat_map, length, map, string_bytes}, List.Sorted.{IsNonDecreasingBy}, Option.{option_to_list}};
ghost use Rattle.fd_transcript.specs.{History.{all_flushed, at_entry, entry_of, flushed_from, flushed_within, history_line, in_order, is_within}, Seen.{entry_number, seen_flush}};

use fd_bytes::{Items, NoMemory};
use fd_lanes::{End, Ends};
use fd_script::Lane;
use std::alloc::Global;

/// A listed flush: its lane's name, its number among the lane's listed flushes, and that of its entry.
#[derive(Clone, Copy)]
pub(crate) struct Listed<'a> {
    pub(crate) lane: &'a str,
    pub(crate) number: u64,
    pub(crate) entry: u32,
}

/// The number of the entry of a flush that was listed.
fn entry_of<F>(end: &End<F>) -> Option<u32>
    ensures { result ≡ entry_of end.now }
{
    match end {
        End::Listed(entry) => Some(*entry),
        _ => None,
    }
}

/// Appends a flush, if it was listed, where so many of the lane were before, and tells how many there are then.
fn push_one<'a>(
    listed: &mut Vec<Listed<'a>>,
    lane: &'a str,
    count: u64,
    entry: Option<u32>,
) -> Result<u64, NoMemory>
    requires { count < 2 ^ 64 - 1 }
    ensures flushes { OnOk result (map seen_flush listed.new.items ≡ map seen_flush listed.old.items ++ flushed_from lane.now (count + 1) (option_to_list entry)) }
    ensures count { IfOk result (λ next. next ≡ count + length (option_to_list entry)) }
{
    let Some(entry) = entry else {
        return Ok(count);
    };
    let number = count + 1;
    listed.push(Listed {
        lane,
        number,
        entry,
    })?;
    Ok(number)
}

/// Appends the listed flushes of a lane.
fn push_lane<'a, F>(
    listed: &mut Vec<Listed<'a>>,
    lane: &'a str,
    ends: &Items<End<F>>,
) -> Result<(), NoMemory>
    ensures { OnOk result (map seen_flush listed.new.items ≡ map seen_flush listed.old.items ++ flushed_from lane.now 1 (filter_map entry_of ends.now)) }
{
    let mut count = 0;
    let total = ends.len();
    for i in 0..total {
        count = push_one(listed, lane, count, entry_of(ends.at(i)))?;
    }
    Ok(())
}

/// The listed flushes of all lanes, lane by lane.
pub(crate) fn all_listed<'a, F>(
    alloc: Global,
    lanes: &'a [Lane],
    ends: &Ends<F>,
) -> Result<Vec<Listed<'a>>, NoMemory>
    ensures { IfOk result (λ v. map seen_flush v.items ≡ all_flushed lanes.now ends.now) }
{
    let mut listed = Vec::new(alloc);
    let count = lanes.len().min(ends.len());
    for i in 0..count {
        push_lane(&mut listed, lanes[i].name.as_str(), ends.at(i))?;
    }
    Ok(listed)
}

/// Puts flushes in the order of their entries. Those of one entry stay in their order.
fn sort_listed(alloc: Global, listed: &mut [Listed<'_>]) -> Result<(), NoMemory>
    ensures sorted { OnOk result (IsNonDecreasingBy entry_number listed.new) }
    ensures same { OnOk result ((n : ℕ) → at_entry (map seen_flush listed.new) n ≡ at_entry (map seen_flush listed.old) n) }
    ensures many { OnOk result (length listed.new ≡ length listed.old) }
{
    listed.sort_by_key(alloc, |flush| flush.entry)?;
    Ok(())
}

/// Tells that a number is behind the first of these and not behind the second.
fn is_within(before: u64, last: u64, number: u64) -> bool
    ensures { result ≡ is_within before last number }
{
    before < number && number <= last
}

/// Appends a flush, if the number of its entry is so.
fn push_if(line: &mut String, flush: &Listed<'_>, before: u64, last: u64) -> Result<(), NoMemory>
    ensures { OnOk result (string_bytes line.new ≡ string_bytes line.old ++ flushed_within before last (seen_flush flush.now)) }
{
    if is_within(before, last, u64::from(flush.entry)) {
        let name = flush.lane;
        let number = flush.number;
        write!(line, " {name}.{number}")?;
    }
    Ok(())
}

/// Appends the flushes the numbers of whose entries are so.
fn push_within(
    line: &mut String,
    listed: &[Listed<'_>],
    before: u64,
    last: u64,
) -> Result<(), NoMemory>
    ensures { OnOk result (string_bytes line.new ≡ string_bytes line.old ++ flat_map (flushed_within before last) (map seen_flush listed.now)) }
{
    for flush in listed {
        push_if(line, flush, before, last)?;
    }
    Ok(())
}

/// Appends the line of the history. The flushes are put in the order of their entries.
pub(crate) fn push_history(
    alloc: Global,
    line: &mut String,
    before: u32,
    listed: &mut [Listed<'_>],
) -> Result<(), NoMemory>
    ensures { OnOk result (string_bytes line.new ≡ string_bytes line.old ++ history_line (in_order before (map seen_flush listed.old))) }
{
    line.push_str("history")?;
    sort_listed(alloc, listed)?;
    let first = u64::from(before);
    push_within(line, listed, first, first + listed.len() as u64)?;
    line.push('\n')?;
    Ok(())
}
