// The parts of a held line, which is given without its LF.
#![tactic(auto)]

ghost use Rattle.std.specs.Prelude.{◌≡◌};
ghost use Rattle.rules.specs.Octets.{space, is, trim_end};
ghost use Rattle.rules.specs.Lines.{content as content_of, argument as argument_of};

// The line without one CR at its end.
pub fn content(line: &[u8]) -> &[u8]
    ensures { result.now ≡ content_of line.now }
{
    line.strip_suffix(b"\r").unwrap_or(line)
}

// What follows the word, without the spaces at both ends.
pub fn argument(content: &[u8]) -> &[u8]
    ensures { result.now ≡ argument_of content.now }
{
    let word_end = octets::find(content, 0, b' ');
    let start = octets::run_of(content, word_end, b' ');
    without_spaces(&content[start..])
}

// A text without the spaces at its end.
fn without_spaces(text: &[u8]) -> &[u8]
    ensures { result.now ≡ trim_end (is space) text.now }
{
    let mut rest = text;
    while let Some(front) = rest.strip_suffix(b" ") {
        rest = front;
    }
    rest
}
