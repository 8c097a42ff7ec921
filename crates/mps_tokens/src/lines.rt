//! Lines.

ghost use Rattle.std.specs.Prelude.{◌≡◌, ◌+◌, ◌<◌, ◌≤◌, ◌∷◌, length, min, drop, slice_range, Option};
ghost use Rattle.std.specs.List.{before_first, position_or_len};
ghost use Rattle.mps_tokens.specs.Lines.{is_line_feed, without_return, lines_of, raw_lines};

/// Where a line stands in its text: its bytes without what ends it, and where the next one begins.
#[derive(Clone, Copy, Debug, PartialEq, Eq)]
pub struct Line {
    pub begin: usize,
    pub end: usize,
    pub next: usize,
}

/// Where the line at `from` ends: at a line feed, or at the end of the text.
fn line_end(text: &[u8], from: usize) -> usize
    requires { from < length text.now }
    ensures place { result ≡ from + position_or_len is_line_feed (drop from text.now) }
    ensures within { result ≤ length text.now }
{
    let mut end = from;
    while end < text.len() && text[end] != b'\n' {
        end += 1;
    }
    end
}

/// The line at `from`, by its places.
fn line_at(text: &[u8], from: usize) -> Line
    requires { from < length text.now }
    ensures begin { result.begin ≡ from }
    ensures order { (result.begin ≤ result.end) × (result.end ≤ result.next) }
    ensures moves { (from < result.next) × (result.next ≤ length text.now) }
    ensures bytes { slice_range text.now result.begin result.end
        ≡ without_return (before_first is_line_feed (drop from text.now)) }
    ensures next { result.next ≡ min (from + position_or_len is_line_feed (drop from text.now) + 1) (length text.now) }
{
    let feed = line_end(text, from);
    let next = if feed < text.len() { feed + 1 } else { feed };
    let end = if from < feed && text[feed - 1] == b'\r' {
        feed - 1
    } else {
        feed
    };
    Line {
        begin: from,
        end,
        next,
    }
}

/// The line at `from`: it ends before its line feed or at the end of the text, and one carriage return at its end is left
/// out. `next` is where the line after it begins, or the end of the text.
pub fn next_line(text: &[u8], from: usize) -> Line
    requires { from < length text.now }
    ensures begin { result.begin ≡ from }
    ensures order { (result.begin ≤ result.end) × (result.end ≤ result.next) }
    ensures moves { (from < result.next) × (result.next ≤ length text.now) }
    ensures bytes { slice_range text.now result.begin result.end
        ≡ without_return (before_first is_line_feed (drop from text.now)) }
    ensures next { result.next ≡ min (from + position_or_len is_line_feed (drop from text.now) + 1) (length text.now) }

    // It is the first of the lines from here on, and the others begin at `next`.
    ensures first { lines_of (drop from text.now)
        ≡ slice_range text.now result.begin result.end ∷ lines_of (drop result.next text.now) }
{
    line_at(text, from)
}
