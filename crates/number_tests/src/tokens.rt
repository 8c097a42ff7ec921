//! Numbers at the edges, lines, fields and the tables' words.

use mps_tokens::{
    BoundKind, CertificateWord, Line, NumberFault, Parts, RowKind, Section, bound_kind_of,
    bound_kinds, certificate_word_of, certificate_words, fields, find, next_line, number,
    row_kind_of, row_kinds, section_of, sections,
};
use std::test::Fail;

#[test]
fn numbers(rt: HostRuntime) -> Result<(), Fail> {
    let spelt = [
        ("1e3", "1000"),
        ("-2.50", "-5/2"),
        (".5", "1/2"),
        ("5.", "5"),
        ("6/4", "3/2"),
        ("1d-2", "1/100"),
        ("0e999", "0"),
        ("+7", "7"),
        ("-0", "0"),
        ("1e38", "100000000000000000000000000000000000000"),
        ("1e-38", "1/100000000000000000000000000000000000000"),
        (
            "-170141183460469231731687303715884105727",
            "-170141183460469231731687303715884105727",
        ),
        (
            "1000000000000000000000000000000000000000000000000000000000000e-60",
            "1",
        ),
        (
            "12.000000000000000000000000000000000000000000000000000000000000000000000000000000000000000000000000000000",
            "12",
        ),
        (
            "0.00000000000000000000000000000000000000000000000000000000000012D+62",
            "12",
        ),
        (
            "0000000000000000000000000000000000000000000000000000000000000000000000000000000000000000000000000000.",
            "0",
        ),
        (
            "0E-000000000000000000000000000000000000000000999999999999999999999999999999999999999999",
            "0",
        ),
        (
            "3e0000000000000000000000000000000000000000000000000000000000000000000000000000000000000001",
            "30",
        ),
        ("-007/0021", "-1/3"),
        (
            "5551115123125782702118158340454101562.5e-74",
            "1/18014398509481984000000000000000000000",
        ),
    ];
    for (text, want) in spelt {
        let shown = match number(text.as_bytes()) {
            Ok(f) => f.to_string(rt.alloc())?,
            Err(_) => String::new(rt.alloc()),
        };
        assert_eq!(rt; shown.as_str(), want, "{text}");
    }
    Ok(())
}

#[test]
fn refused_numbers(rt: HostRuntime) {
    let past = [
        "1e39",
        "1e-39",
        "170141183460469231731687303715884105728",
        "1e999999999999999999999999999999",
        "1e-999999999999999999999999999999",
        "1/170141183460469231731687303715884105728",
        "999999999999999999999999999999999999999999999999999999999999.9e-60",
    ];
    for text in past {
        assert!(rt;
            matches!(number(text.as_bytes()), Err(NumberFault::Past)),
            "{text}"
        );
    }
    let other = [
        ".", "1e", "1/0", "1/-2", "0x1", "", "1.2.3", "+-1", "1e+", "1e2e3", "1/", "/1", "1e3/2",
        " 1", "1/2/3", "1e2.",
    ];
    for text in other {
        assert!(rt;
            matches!(number(text.as_bytes()), Err(NumberFault::NotNumber)),
            "{text}"
        );
    }
}

#[test]
fn lines_and_fields(rt: HostRuntime) {
    let text = b" UP B x\t4\r\n\r\nENDATA\r".as_slice();
    for (from, begin, end, next) in [(0, 0, 9, 11), (11, 11, 11, 13), (13, 13, 19, 20)] {
        assert_eq!(rt; next_line(text, from), Line { begin, end, next });
    }
    let line = b"  UP B x\t4 ".as_slice();
    let parts = Parts::of(line);
    assert_eq!(rt; parts.len(), 4);
    for (k, word) in [
        (0, b"UP".as_slice()),
        (1, b"B".as_slice()),
        (2, b"x".as_slice()),
        (3, b"4".as_slice()),
    ] {
        if k < parts.len() {
            assert!(rt; parts.get(k) == word);
        }
    }
    let many = fields(b"a b c d e f g");
    assert_eq!(rt; many.count, 6);
    if 5 < many.count {
        assert_eq!(rt; many.at(5), (10, 11));
    }
}

#[test]
fn words(rt: HostRuntime) {
    assert_eq!(rt; find(&sections(), b"OBJSENSE"), Some(11));
    assert_eq!(rt; find(&row_kinds(), b"E"), Some(4));
    assert_eq!(rt; find(&bound_kinds(), b"UI"), Some(9));
    assert_eq!(rt; find(&certificate_words(), b"END"), Some(17));
    assert_eq!(rt; find(&sections(), b"ROW"), None);
    assert_eq!(rt; section_of(b"QMATRIX"), Some(Section::QMatrix));
    assert_eq!(rt; row_kind_of(b"n"), None);
    assert_eq!(rt; row_kind_of(b"G"), Some(RowKind::AtLeast));
    assert_eq!(rt; bound_kind_of(b"MI"), Some(BoundKind::MinusInfinity));
    assert_eq!(rt; certificate_word_of(b"CROSS"), Some(CertificateWord::Cross));
}
