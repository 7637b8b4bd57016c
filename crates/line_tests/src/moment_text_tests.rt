use crate::rows::{number, rows, sides};
use moment_core::{Moment, Stamp, in_work};
use moment_text::{read_moment, shaped_front, write_literal};

// The seconds are python3's, `datetime(y, m, d, h, n, s) - datetime(1970, 1, 1)`; years outside 1
// to 9999 were moved by 400 years and 146,097 days at a time.
#[test]
fn literals_are_written_and_read_back_as_the_moments_of_python(rt: HostRuntime) {
    const ROWS: &str = "\
-9900-01-01T00:00:00 -> -374580979200
9900-12-31T23:59:59Z -> 250278163199
1970-01-01T00:00:00Z -> 0
1969-12-31T23:59:59 -> -1
2000-02-29T12:34:56 -> 951827696
1900-03-01T00:00:00Z -> -2203891200
0000-02-29T23:59:59 -> -62162035201
-0001-12-31T23:59:59 -> -62167219201
-0044-03-15T06:07:08Z -> -63549337972
0001-01-01T00:00:00 -> -62135596800
0987-06-05T04:03:21 -> -31007044599
2024-09-13T00:00:00 -> 1726185600
";
    for row in rows(&rt, ROWS) {
        let (text, seconds) = sides(&rt, row);
        let stamp = Stamp {
            moment: Moment(number(&rt, seconds)),
            absolute: text.ends_with('Z'),
        };
        assert_eq!(rt; read_moment(text.as_bytes()), Some(stamp), "{row}");
        assert_eq!(rt; shaped_front(text.as_bytes()), text.len(), "{row}");
        assert!(rt; in_work(stamp.moment));
        assert_eq!(rt; write_literal(stamp).as_slice(), text.as_bytes(), "{row}");
    }
}

#[test]
fn other_texts_name_no_moment_and_have_these_fronts(rt: HostRuntime) {
    const ROWS: &str = "\
-9901-12-31T23:59:59 -> 20
9901-01-01T00:00:00Z -> 20
9999-12-31T23:59:59 -> 19
-0000-01-01T00:00:00 -> 20
1900-02-29T00:00:00 -> 19
2024-13-01T00:00:00 -> 19
2024-00-01T00:00:00 -> 19
2024-01-00T00:00:00 -> 19
2024-04-31T00:00:00Z -> 20
2024-01-01T24:00:00 -> 19
2024-01-01T00:60:00 -> 19
2016-12-31T23:59:60Z -> 20
2024-01-01T00:00:00z -> 19
2024-01-01T00:00:00ZZ -> 20
2024-01-01T00:00:00, 2 -> 19
2024-01-01t00:00:00 -> 0
2024-01-01 00:00:00 -> 0
2024-01-01T00:00:0 -> 0
2024-1-01T00:00:00 -> 0
024-01-01T00:00:00 -> 0
--024-01-01T00:00:00 -> 0
+2024-01-01T00:00:00 -> 0
20240101T000000Z -> 0
-5 -> 0
- -> 0
 -> 0
";
    for row in rows(&rt, ROWS) {
        let (text, front) = sides(&rt, row);
        assert_eq!(rt; read_moment(text.as_bytes()), None, "{row}");
        assert_eq!(rt; front.parse(), Ok(shaped_front(text.as_bytes())), "{row}");
    }
}
