ghost use Rattle.std.specs.Prelude.{◌≡◌, ◌≤◌, ◌<◌, ◌*◌, ◌+◌, ◌++◌, ◌^◌, List, true, length, IfOk, IfSome, OnOk, OnErr};
ghost use Rattle.fd_templates.specs.{Interval.{range_of, ranges_of, count_of, interval_of, range_octets, ranges_octets, end_octets, interval_octets}, AnyProduct.{Extends, interval_if}, Widths.{RangeRanges, AllRanges, IntervalRanges}};

use crate::date_time::{DateTime, date_time_in_range, date_time_octets, date_time_of};
use crate::octets::{read_u8, read_u32};
use fd_bytes::NoMemory;
use std::alloc::Global;
use std::marker::Model;

/// A time range over which a statistic was taken.
#[derive(Clone, Copy, Debug, PartialEq, Eq)]
pub struct Range {
    /// Code table 4.10: the statistical process.
    pub process: u8,
    /// Code table 4.11: what was raised between the fields that were taken.
    pub increment_kind: u8,
    /// Code table 4.4: what the length counts.
    pub unit: u8,
    pub length: u32,
    /// Code table 4.4: what the increment counts.
    pub increment_unit: u8,
    /// 0 where the process went on all the time.
    pub increment: u32,
}

/// The time ranges of an interval, at most 255. Contracts see them as a list.
#[derive(Debug, Drop)]
pub struct Ranges {
    items: Vec<Range>,
}

impl Model for Ranges {
    ghost use Rattle.std.specs.Prelude.{List, ◌≤◌, length};
    ghost use Rattle.fd_templates.specs.declared.interval.Range.{Range};

    ghost Value = { List Range };

    ghost view = { λ r. r.items.items };

    ghost invariant = { λ r. length r.items.items ≤ 255 };
}

impl Ranges {
    /// These ranges.
    pub fn from_vec(items: Vec<Range>) -> Ranges
        requires { length items.items ≤ 255 }
        ensures { result ≡ items.items }
    {
        Ranges { items }
    }

    /// The ranges, as they were put in.
    pub fn into_vec(self) -> Vec<Range>
        ensures { result.items ≡ self }
    {
        let Ranges { items } = self;
        items
    }

    /// The ranges in their order.
    pub fn as_slice(&self) -> &[Range]
        ensures ranges { result.now ≡ self.now }
        ensures few { length self.now ≤ 255 }
    {
        &self.items
    }
}

/// An interval of time: its end, and the time ranges that were processed.
#[derive(Debug, Drop)]
pub struct Interval {
    /// The end of the interval.
    pub end: DateTime,
    /// How many values were missing in the process.
    pub missing: u32,
    pub ranges: Ranges,
}

/// A time range.
fn range_of(octets: &[u8]) -> Range
    requires { 12 ≤ length octets.now }
    ensures { result ≡ range_of octets.now }
{
    Range {
        process: read_u8(octets, 1),
        increment_kind: read_u8(octets, 2),
        unit: read_u8(octets, 3),
        length: read_u32(octets, 4),
        increment_unit: read_u8(octets, 8),
        increment: read_u32(octets, 9),
    }
}

/// So many time ranges.
#[tactic(auto, unfolding(crate::specs::Interval::ranges_of))]
fn ranges_of(alloc: Global, count: u8, octets: &[u8]) -> Result<Ranges, NoMemory>
    requires { 12 * count ≤ length octets.now }
    ensures { IfOk result (λ r. r ≡ ranges_of count octets.now) }
{
    let mut items = Vec::new(alloc);
    let mut rest = octets;
    for _i in 0..count {
        items.push(range_of(rest))?;
        let (_, behind) = rest.split_at(12);
        rest = behind;
    }
    Ok(Ranges { items })
}

/// How many time ranges there are, or 0 where the octets end before that number.
pub(crate) fn count_of(tail: &[u8]) -> u8
    ensures { result ≡ count_of tail.now }
{
    if tail.len() < 8 { 0 } else { read_u8(tail, 8) }
}

/// The numbers of an interval.
fn numbers(alloc: Global, tail: &[u8]) -> Result<Interval, NoMemory>
    requires { 12 + 12 * count_of tail.now ≤ length tail.now }
    ensures { IfOk result (λ i. i ≡ interval_of tail.now) }
{
    let (_, behind) = tail.split_at(12);
    let ranges = ranges_of(alloc, count_of(tail), behind)?;
    Ok(Interval {
        end: date_time_of(tail, 1),
        missing: read_u32(tail, 9),
        ranges,
    })
}

/// The same, where there are such numbers.
pub(crate) fn interval_if(
    alloc: Global,
    has: bool,
    tail: &[u8],
) -> Result<Option<Interval>, NoMemory>
    requires { has ≡ true → 12 + 12 * count_of tail.now ≤ length tail.now }
    ensures { IfOk result (λ o. o ≡ interval_if has tail.now) }
{
    if !has {
        return Ok(None);
    }
    let interval = numbers(alloc, tail)?;
    Ok(Some(interval))
}

/// Each number of a time range is in the range of its type.
fn range_in_range(range: Range)
    ensures { RangeRanges range }
{}

/// The same of each of these.
fn ranges_in_range(ranges: &[Range])
    ensures { AllRanges ranges.now }
{
    for range in ranges {
        range_in_range(*range);
    }
}

/// How many values were missing is in the range of its type.
fn missing_in_range(missing: u32)
    ensures { missing < 2 ^ 32 }
{}

/// Each number of an interval is in the range of its type.
fn in_range(interval: &Interval)
    ensures { IntervalRanges interval.now }
{
    date_time_in_range(interval.end);
    missing_in_range(interval.missing);
    ranges_in_range(interval.ranges.as_slice());
}

/// The same, where there are such numbers.
pub(crate) fn interval_in_range(interval: &Option<Interval>)
    ensures { IfSome interval.now IntervalRanges }
{
    if let Some(interval) = interval {
        in_range(interval);
    }
}

/// The octets of a time range.
fn range_octets(range: Range) -> [u8; 12]
    ensures { result ≡ range_octets range }
{
    let length = range.length.to_be_bytes();
    let increment = range.increment.to_be_bytes();
    [
        range.process,
        range.increment_kind,
        range.unit,
        length[0],
        length[1],
        length[2],
        length[3],
        range.increment_unit,
        increment[0],
        increment[1],
        increment[2],
        increment[3],
    ]
}

/// Appends the octets of time ranges.
#[tactic(auto, using(crate::proofs::Growing::extends_same, crate::proofs::Growing::extends_by, crate::proofs::Growing::extends_both), unfolding(crate::specs::Interval::ranges_octets))]
fn push_ranges(out: &mut Vec<u8>, ranges: &[Range]) -> Result<(), NoMemory>
    ensures ok { OnOk result (out.new.items ≡ out.old.items ++ ranges_octets ranges.now) }
    ensures err { OnErr result (Extends out.old.items out.new.items) }
{
    for range in ranges {
        out.extend_from_slice(&range_octets(*range))?;
    }
    Ok(())
}

/// The octets of an interval before its ranges.
fn end_octets(interval: &Interval) -> [u8; 12]
    ensures { result ≡ end_octets interval.now }
{
    in_range(interval);
    let end = date_time_octets(interval.end);
    let count = interval.ranges.as_slice().len() as u8;
    let missing = interval.missing.to_be_bytes();
    [
        end[0], end[1], end[2], end[3], end[4], end[5], end[6], count, missing[0], missing[1],
        missing[2], missing[3],
    ]
}

/// Appends the octets of an interval, if there is one.
#[tactic(auto, using(crate::proofs::Growing::extends_same, crate::proofs::Growing::extends_by, crate::proofs::Growing::extends_both))]
pub(crate) fn push_interval(out: &mut Vec<u8>, interval: &Option<Interval>) -> Result<(), NoMemory>
    ensures ok { OnOk result (out.new.items ≡ out.old.items ++ interval_octets interval.now) }
    ensures err { OnErr result (Extends out.old.items out.new.items) }
{
    match interval {
        Some(interval) => {
            out.extend_from_slice(&end_octets(interval))?;
            push_ranges(out, interval.ranges.as_slice())
        }
        None => Ok(()),
    }
}
