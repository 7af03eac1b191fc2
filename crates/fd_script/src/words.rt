// What a line says.
ghost use Rattle.std.specs.Prelude.{◌≡◌, option_map};
ghost use Rattle.fd_spelling.specs.Numerals.{cut};
ghost use Rattle.fd_script.specs.{Lines.{is_silent, said, word_said, words_said}, Reading.{seen_said}};

/// What the line of a step asks for.
#[derive(Clone, Copy)]
pub(crate) enum Task<'a> {
    /// `put NUMBER`
    Put(&'a str),
    /// `flush`
    Flush,
    /// `get REQUEST`
    Get(&'a str),
}

/// What a line says.
#[derive(Clone, Copy)]
pub(crate) enum Said<'a> {
    /// Nothing: it is empty or a comment.
    Silent,
    /// `dataset TEXT`
    Dataset(&'a str),
    /// `lane NAME PAIRS`
    Lane(&'a str, &'a str),
    /// A step.
    Step(Task<'a>),
    /// `messages`
    Messages,
    /// None of these.
    Unknown,
}

/// What stands before the first blank, and what stands behind it.
#[tactic(auto, unfolding(fd_spelling::specs::Numerals::cut))]
fn at_blank(text: &str) -> Option<(&str, &str)>
    ensures { option_map (λ p. (p.0.now, p.1.now)) result ≡ cut 32 text.now }
{
    text.split_once(' ')
}

/// Tells that a line is empty or a comment.
fn is_silent(line: &str) -> bool
    ensures { result ≡ is_silent line.now }
{
    match line.as_bytes() {
        [] => true,
        [first, ..] => *first == b'#',
    }
}

/// What a word says with what stands behind it.
fn words_said<'a>(word: &str, rest: &'a str) -> Said<'a>
    ensures { seen_said result ≡ words_said word.now rest.now }
{
    if word == "dataset" {
        return Said::Dataset(rest);
    }
    if word == "lane" {
        return match at_blank(rest) {
            Some((name, pairs)) => Said::Lane(name, pairs),
            None => Said::Unknown,
        };
    }
    if word == "put" {
        return Said::Step(Task::Put(rest));
    }
    if word == "get" {
        return Said::Step(Task::Get(rest));
    }
    Said::Unknown
}

/// What a line says that isn't silent.
fn word_said(line: &str) -> Said<'_>
    ensures { seen_said result ≡ word_said line.now }
{
    if line == "flush" {
        return Said::Step(Task::Flush);
    }
    if line == "messages" {
        return Said::Messages;
    }
    match at_blank(line) {
        Some((word, rest)) => words_said(word, rest),
        None => Said::Unknown,
    }
}

/// What a line says.
#[tactic(auto, unfolding(crate::specs::Lines::said))]
pub(crate) fn line_said(line: &str) -> Said<'_>
    ensures { seen_said result ≡ said line.now }
{
    if is_silent(line) {
        return Said::Silent;
    }
    word_said(line)
}
