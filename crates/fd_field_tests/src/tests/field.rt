//! One message, whose octets the tests change.

/// A message of one field of four points: its sections, one a line, and their places.
pub const FIELD: [u8; 183] = *b"GRIB\xFF\xFF\x00\x02\x00\x00\x00\x00\x00\x00\x00\xB7\
\x00\x00\x00\x15\x01\x00\x62\x00\x00\x02\x00\x01\x07\xE8\x01\x01\x00\x00\x00\x00\x01\
\x00\x00\x00\x48\x03\x00\x00\x00\x00\x04\x00\x00\x00\x00\x06\xFF\xFF\xFF\xFF\xFF\xFF\xFF\xFF\xFF\xFF\
\xFF\xFF\xFF\xFF\xFF\x00\x00\x00\x02\x00\x00\x00\x02\x00\x00\x00\x00\xFF\xFF\xFF\xFF\x00\x98\x96\x80\x00\x00\x00\x00\
\x30\x00\x00\x00\x00\x00\x98\x96\x80\x00\x98\x96\x80\x00\x98\x96\x80\x00\
\x00\x00\x00\x22\x04\x00\x00\x00\x00\x00\x00\x02\x00\x00\x00\x00\x00\x01\x00\x00\x00\x00\
\x64\x00\x00\x01\x86\xA0\xFF\xFF\xFF\xFF\xFF\xFF\
\x00\x00\x00\x15\x05\x00\x00\x00\x04\x00\x00\x43\xFA\x00\x00\x80\x01\x00\x01\x08\x00\
\x00\x00\x00\x06\x06\xFF\
\x00\x00\x00\x09\x07\x03\x10\x1D\x2A\
7777";

/// Where section 1 begins.
pub const SECTION_1: usize = 16;

/// Where section 3 begins.
pub const SECTION_3: usize = 37;

/// Where section 4 begins.
pub const SECTION_4: usize = 109;

/// Where section 5 begins.
pub const SECTION_5: usize = 143;

/// Where section 6 begins.
pub const SECTION_6: usize = 164;

/// Where section 7 begins.
pub const SECTION_7: usize = 170;

/// Has other octets from a place on.
fn put(field: &mut [u8; 183], place: usize, octets: &[u8]) {
    let mut at = place;
    for octet in octets {
        if let Some(old) = field.get_mut(at) {
            *old = *octet;
        }
        at = at.saturating_add(1);
    }
}

/// The message with other octets from a place on.
pub fn with(place: usize, octets: &[u8]) -> [u8; 183] {
    let mut field = FIELD;
    put(&mut field, place, octets);
    field
}

/// Other octets from a place on.
pub type Change = (usize, &'static [u8]);

/// Numbers of templates that aren't read, and the bit map of a field before.
pub const OTHERS: [Change; 4] = [
    (SECTION_3 + 13, &[40]),
    (SECTION_4 + 7, &[1]),
    (SECTION_5 + 10, &[3]),
    (SECTION_6 + 5, &[254]),
];

/// The message with these other octets.
pub fn changed(changes: &[Change]) -> [u8; 183] {
    let mut field = FIELD;
    for (place, octets) in changes {
        put(&mut field, *place, octets);
    }
    field
}
