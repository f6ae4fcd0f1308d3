// Where an hour record ends in a text: behind the first line, from the record's first byte on, that is exactly `end=hour`.
#![tactic(auto)]

ghost use Rattle.std.specs.Prelude.{◌≡◌};
ghost use Rattle.record_end.specs.End.{is_end, behind_record};

// Whether a line is exactly `end=hour`.
fn is_end(line: &[u8]) -> bool
    ensures { result ≡ is_end line.now }
{
    text::key_is(line, *b"end=======") && text::word_is(text::value_of(line), *b"hour======")
}

// The place behind the next line that is exactly `end=hour`, or the text's end. A record that is accepted ends there too, since no
// other line of it has the key `end`.
pub fn behind_record(text: &[u8], from: usize) -> usize
    ensures { result ≡ behind_record text.now from }
{
    let mut at = from;
    // from line to line, so that no `for` counts the place
    while at < text.len() {
        let e = text::find(text, at, b'\n');
        if text.len() <= e {
            return text.len();
        }
        if is_end(&text[at..e]) {
            return e + 1;
        }
        at = e + 1;
    }
    at
}
