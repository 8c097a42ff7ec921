//! Fields of a line.

ghost use Rattle.std.specs.Prelude.{◌≡◌, ◌+◌, ◌<◌, ◌≤◌, length, min, take, drop, map};
ghost use Rattle.std.specs.List.{prefix_len, position_or_len};
ghost use Rattle.mps_tokens.specs.FieldsOf.{is_blank, fields_of, span_of, AreWithin};

use crate::spans::Fields;

fn is_blank(byte: u8) -> bool
    ensures { result ≡ is_blank byte }
{
    byte == b' ' || byte == b'\t'
}

/// Where the blanks from `at` on end.
fn field_begin(line: &[u8], at: usize) -> usize
    requires { at ≤ length line.now }
    ensures place { result ≡ at + prefix_len is_blank (drop at line.now) }
    ensures within { result ≤ length line.now }
{
    let mut begin = at;
    while begin < line.len() && is_blank(line[begin]) {
        begin += 1;
    }
    begin
}

/// Where the field at `begin` ends.
fn field_end(line: &[u8], begin: usize) -> usize
    requires { begin ≤ length line.now }
    ensures place { result ≡ begin + position_or_len is_blank (drop begin line.now) }
    ensures within { result ≤ length line.now }
{
    let mut end = begin;
    while end < line.len() && !is_blank(line[end]) {
        end += 1;
    }
    end
}

/// Where the first six fields of the line stand. Fields are what blanks and tabs leave; a line of more than six has count 6.
pub fn fields(line: &[u8]) -> Fields
    ensures spans { map (span_of line.now) (take result.count result.spans) ≡ take 6 (fields_of line.now) }
    ensures within { AreWithin line.now result.spans result.count }
    ensures count { result.count ≡ min 6 (length (fields_of line.now)) }
{
    let mut spans = [(0, 0); 6];
    let mut count = 0;
    let mut at = 0;
    while count < 6 {
        let begin = field_begin(line, at);
        if begin == line.len() {
            break;
        }
        at = field_end(line, begin);
        spans[count] = (begin, at);
        count += 1;
    }
    Fields { spans, count }
}
