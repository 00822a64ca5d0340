//! A line of a text.
ghost use Rattle.std.specs.Prelude.{◌≡◌, ◌≤◌, ◌<◌, length, drop};
ghost use Rattle.std.specs.Io.BufRead.{strip_last};
ghost use Rattle.rb_heredoc.specs.Lines.{line_end, is_white, are_white, content};

/// The place after the line that a place begins: after its newline, or the text's end.
#[tactic(auto, unfolding(crate::specs::Lines::line_end))]
pub(crate) fn line_end(text: &[u8], from: usize) -> usize
    requires { from < length text.now }
    ensures forward { from < result }
    ensures within { result ≤ length text.now }
    ensures value { result ≡ line_end from (drop from text.now) }
{
    let mut at = from;
    'bytes: while at < text.len() {
        at += 1;
        if text[at - 1] == b'\n' {
            break;
        }
    }
    at
}

fn is_white(byte: u8) -> bool
    ensures { result ≡ is_white byte }
{
    byte == b' ' || byte == b'\t' || byte == b'\r'
}

/// Whether each byte is white space.
#[tactic(auto, unfolding(crate::specs::Lines::are_white))]
pub(crate) fn are_white(bytes: &[u8]) -> bool
    ensures { result ≡ are_white bytes.now }
{
    let mut at = 0;
    'bytes: while at < bytes.len() {
        if !is_white(bytes[at]) {
            return false;
        }
        at += 1;
    }
    true
}

/// The bytes without that byte at their end.
fn without_last(bytes: &[u8], last: u8) -> &[u8]
    ensures { result.now ≡ strip_last last bytes.now }
{
    let len = bytes.len();
    if len > 0 && bytes[len - 1] == last {
        &bytes[..len - 1]
    } else {
        bytes
    }
}

/// What stands in a line: neither its newline nor a carriage return before that counts.
pub(crate) fn content(line: &[u8]) -> &[u8]
    ensures { result.now ≡ content line.now }
{
    without_last(without_last(line, b'\n'), b'\r')
}
