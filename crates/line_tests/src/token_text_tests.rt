use crate::rows::{rows, sides};
use moment_core::{Dir, LOW, Pos};
use span_core::Token;
use token_text::{read_token, write_token};

#[test]
fn a_token_is_read_from_its_text_alone(rt: HostRuntime) {
    const ROWS: &str = "\
fore:1942855201:-:500556326398 -> true
fore:3:3:3 -> true
back:-7:0:-9 -> true
fore:4:-:3 -> true
back:2:-:3 -> true
 -> false
fore -> false
fore:1:- -> false
fore:1:-:2:3 -> false
fore:+1:-:2 -> false
fore:01:-:2 -> false
fore:-0:-:2 -> false
FORE:1:-:2 -> false
fore:1:--:2 -> false
fore:5:-:3 -> false
fore:3:4:9 -> false
back:1:-:3 -> false
fore:1:-:500556326399 -> false
fore:1:-:99999999999999999999 -> false
";
    for row in rows(&rt, ROWS) {
        let (text, reads) = sides(&rt, row);
        assert_eq!(rt;
            reads.parse(),
            Ok(read_token(text.as_bytes()).is_some()),
            "{row}"
        );
    }
    assert!(rt; read_token(b"fore:1:-:\xff").is_none());
}

#[test]
fn a_token_is_written_as_its_four_parts(rt: HostRuntime) {
    let token = Token {
        dir: Dir::Back,
        place: Pos(-7),
        begun: Some(Pos(0)),
        end: Pos(2 * LOW),
    };
    let text = "back:-7:0:-749161958400";
    assert_eq!(rt; write_token(token).as_slice(), text.as_bytes());
    assert_eq!(rt; read_token(text.as_bytes()), Some(token));
}
