//! Tables of words.

ghost use Rattle.std.specs.Prelude.{◌≡◌, ◌<◌, ◌≤◌, ◌-◌, ◌++◌, length, take, replicate, IsTrue, Some};
ghost use Rattle.mps_tokens.specs.Cases.{entry_of, entries_of, named, has_distinct_words, row_kind_table, section_table, bound_kind_table, certificate_table};

use crate::case::Case;

/// The case of a word.
fn case_of(word: &[u8], number: u8) -> Case
    requires { (0 < length word.now) × (length word.now ≤ 12) }
    ensures entry { entry_of result ≡ (word.now, number) }
    ensures padded { result.text ≡ word.now ++ replicate (12 - length word.now) 0 }
{
    let mut text = [0; 12];
    let length = word.len();
    text[..length].copy_from_slice(word);
    Case {
        text,
        length: length as u8,
        number,
    }
}

macro_rules! cases {
    ($($number:literal => $word:literal),* $(,)?) => {
        [$(case_of($word, $number)),*]
    };
}

/// The words of the kinds of rows, from 1.
pub fn row_kinds() -> [Case; 4]
    ensures table { entries_of result ≡ row_kind_table }
    ensures distinct { IsTrue (has_distinct_words (entries_of result)) }
{
    cases! { 1 => b"N", 2 => b"L", 3 => b"G", 4 => b"E" }
}

/// The words that begin a section, from 1.
pub fn sections() -> [Case; 11]
    ensures table { entries_of result ≡ section_table }
    ensures distinct { IsTrue (has_distinct_words (entries_of result)) }
{
    cases! {
        1 => b"NAME", 2 => b"ROWS", 3 => b"COLUMNS", 4 => b"RHS", 5 => b"RANGES", 6 => b"BOUNDS",
        7 => b"QUADOBJ", 8 => b"QMATRIX", 9 => b"DMATRIX", 10 => b"ENDATA", 11 => b"OBJSENSE",
    }
}

/// The words of the kinds of bounds, from 1.
pub fn bound_kinds() -> [Case; 9]
    ensures table { entries_of result ≡ bound_kind_table }
    ensures distinct { IsTrue (has_distinct_words (entries_of result)) }
{
    cases! {
        1 => b"UP", 2 => b"LO", 3 => b"FX", 4 => b"FR", 5 => b"MI", 6 => b"PL", 7 => b"BV",
        8 => b"LI", 9 => b"UI",
    }
}

/// The words that begin a line of a certificate, from 1.
pub fn certificate_words() -> [Case; 17]
    ensures table { entries_of result ≡ certificate_table }
    ensures distinct { IsTrue (has_distinct_words (entries_of result)) }
{
    cases! {
        1 => b"OPTIMAL", 2 => b"INFEASIBLE", 3 => b"UNBOUNDED", 4 => b"NOTCONVEX", 5 => b"VALUE",
        6 => b"POINT", 7 => b"RAY", 8 => b"VECTOR", 9 => b"SQUARE", 10 => b"COEF", 11 => b"BRANCH",
        12 => b"BOUND", 13 => b"FARKAS", 14 => b"CROSS", 15 => b"W", 16 => b"Y", 17 => b"END",
    }
}

/// The number of the case with this word, or None where there is none. The words of the table are distinct.
pub fn find<const N: usize>(table: &[Case; N], word: &[u8]) -> Option<u8>
    requires { IsTrue (has_distinct_words (entries_of table.now)) }
    ensures { result ≡ named (entries_of table.now) word.now }
{
    for case in table {
        if &case.text[..case.length as usize] == word {
            return Some(case.number);
        }
    }
    None
}
