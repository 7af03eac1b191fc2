// Where a value stands in a text that holds several.
ghost use Rattle.std.specs.Prelude.{◌≡◌, ◌≤◌, length, slice_range};
ghost use Rattle.fd_key.specs.Spans.{IsSpan};

use arrayvec::ArrayString;

/// Where a value stands in a text: from `start` on, up to `end`.
#[derive(Clone, Copy, Debug)]
pub(crate) struct Span {
    pub(crate) start: usize,
    pub(crate) end: usize,
}

/// The value that stands there.
pub(crate) fn value_at<'a>(text: &'a str, span: &Span) -> &'a str
    requires { IsSpan text.now span.now }
    ensures { result.now ≡ slice_range text.now span.now.start span.now.end }
{
    &text[span.start..span.end]
}

/// A name of at most 16 bytes, which takes no memory.
pub(crate) fn in_place(name: &str) -> ArrayString<16>
    requires { length name.now ≤ 16 }
    ensures { result.bytes ≡ name.now }
{
    let mut out = ArrayString::new();
    out.push_str(name);
    out
}
