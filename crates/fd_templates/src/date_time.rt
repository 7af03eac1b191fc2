ghost use Rattle.std.specs.Prelude.{◌≡◌, ◌+◌, ◌≤◌, length};
ghost use Rattle.fd_templates.specs.{DateTime.{date_time_of, date_time_octets}, Widths.{DateTimeRanges}};

use crate::octets::{read_u8, read_u16};

/// A day and a time of day, in UTC.
#[derive(Clone, Copy, Debug, PartialEq, Eq)]
pub struct DateTime {
    pub year: u16,
    pub month: u8,
    pub day: u8,
    pub hour: u8,
    pub minute: u8,
    pub second: u8,
}

/// The day and the time in the seven octets from this one on.
pub(crate) fn date_time_of(section: &[u8], first: usize) -> DateTime
    requires from_one { 1 ≤ first }
    requires within { first + 6 ≤ length section.now }
    ensures { result ≡ date_time_of first section.now }
{
    DateTime {
        year: read_u16(section, first),
        month: read_u8(section, first + 2),
        day: read_u8(section, first + 3),
        hour: read_u8(section, first + 4),
        minute: read_u8(section, first + 5),
        second: read_u8(section, first + 6),
    }
}

/// Each number is in the range of its type.
pub(crate) fn date_time_in_range(time: DateTime)
    ensures { DateTimeRanges time }
{}

/// Their octets.
pub(crate) fn date_time_octets(time: DateTime) -> [u8; 7]
    ensures { result ≡ date_time_octets time }
{
    let year = time.year.to_be_bytes();
    [
        year[0],
        year[1],
        time.month,
        time.day,
        time.hour,
        time.minute,
        time.second,
    ]
}
