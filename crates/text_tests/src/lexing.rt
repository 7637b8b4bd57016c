//! Tests of expr_tokens.

use expr_tokens::{Token, TokenFault, Word, tokens};
use moment_core::Op;
use std::alloc::Global;
use std::test::Fail;

// A token as a letter and a number: `#` and a number's value, `w` and the place of a word, `n` and
// the length of another name, `"` and that of a string, `T` or `Z` and the seconds of a floating or
// an absolute moment, `x` and the place of a literal that names none, and of a sign itself and 0.
fn code(token: &Token<'_>) -> (char, i64) {
    match token {
        Token::Open => ('(', 0),
        Token::Close => (')', 0),
        Token::LeftBrace => ('{', 0),
        Token::RightBrace => ('}', 0),
        Token::Comma => (',', 0),
        Token::Semicolon => (';', 0),
        Token::Equals => ('=', 0),
        Token::Exclamation => ('!', 0),
        Token::Operator(Op::Union) => ('|', 0),
        Token::Operator(Op::Minus) => ('-', 0),
        Token::Operator(Op::Meet) => ('&', 0),
        Token::Number(n) => ('#', *n),
        Token::Word(_, place) => ('w', (*place).min(1000) as i64),
        Token::Name(name) => ('n', name.len().min(2000) as i64),
        Token::Text(text) => ('"', text.len().min(2000) as i64),
        Token::Moment(Some(stamp), _) => (if stamp.absolute { 'Z' } else { 'T' }, stamp.moment.0),
        Token::Moment(None, place) => ('x', (*place).min(1000) as i64),
    }
}

/// The codes of the tokens, with a blank after each.
fn codes(alloc: Global, found: &[Token<'_>]) -> Result<String, Fail> {
    let mut line = String::new(alloc);
    for token in found {
        let (letter, number) = code(token);
        write!(line, "{letter}{number} ")?;
    }
    Ok(line)
}

// The seconds are python3's, `datetime(y, m, d, h, n, s) - datetime(1970, 1, 1)`.
#[test]
fn texts_are_read_as_these_tokens(rt: HostRuntime) -> Result<(), Fail> {
    const ROWS: &str = "\
5-3 -> #5 #-3
- 5 -> -0 #5
--5 -> -0 #-5
a-b -> n1 -0 n1
9999999999999 -> #9999999999999
-0000000000007 -> #-7
2024-01-01 -> #2024 #-1 #-1
2024-01-01T00:00:00Z -> Z1704067200
2024-01-01T00:00:00 -> T1704067200
2024-01-01T00:00:00Zoned -> Z1704067200 n4
-0044-03-15T06:07:08Z -> Z-63549337972
2023-02-29T00:00:00 -> x0
 {-9901-12-31T23:59:59} -> {0 x2 }0
days=1,2 -> w0 =0 #1 ,0 #2
dayss day days_ days1 days -> n5 n3 n5 n5 w22
a1 & \"UTC0\"|\"\"; -> n2 &0 \"4 |0 \"0 ;0
!(span()) -> !0 (0 w2 (0 )0 )0
";
    let alloc = rt.alloc();
    for row in ROWS.lines() {
        let Some((text, wanted)) = row.split_once(" -> ") else {
            panic!(rt; "no row: {row}");
        };
        let found = codes(alloc, &tokens(alloc, text.as_bytes())?)?;
        assert_eq!(rt; found.trim_end(), wanted, "{text}");
    }
    Ok(())
}

#[test]
fn blanks_alone_have_no_tokens(rt: HostRuntime) -> Result<(), Fail> {
    let many = " ".repeat(rt.alloc(), 70_000)?;
    for text in ["", "\t\r\n ", many.as_str()] {
        assert_eq!(rt; tokens(rt.alloc(), text.as_bytes())?.len(), 0);
    }
    Ok(())
}

#[test]
fn one_byte_alone_is_a_sign_a_letter_a_digit_or_a_blank(rt: HostRuntime) {
    for b in 0..=255 {
        let wanted = match b {
            b'(' | b')' | b'{' | b'}' | b',' | b';' | b'=' | b'|' | b'&' | b'-' | b'!' => Ok(1),
            b'a'..=b'z' | b'0'..=b'9' => Ok(1),
            b' ' | b'\t' | b'\n' | b'\r' => Ok(0),
            _ => Err(TokenFault::Token { byte: 0 }),
        };
        assert_eq!(rt;
            tokens(rt.alloc(), &[b]).map(|found| found.len()),
            wanted,
            "{b}"
        );
    }
}

#[test]
fn strings_have_at_most_1024_bytes(rt: HostRuntime) -> Result<(), Fail> {
    for (length, wanted) in [(1024, Ok(1)), (1025, Err(TokenFault::Token { byte: 0 }))] {
        let letters = "a".repeat(rt.alloc(), length)?;
        let text = ["\"", letters.as_str(), "\""].concat(rt.alloc())?;
        assert_eq!(rt;
            tokens(rt.alloc(), text.as_bytes()).map(|found| found.len()),
            wanted,
            "{length}"
        );
    }
    Ok(())
}

#[test]
fn each_name_of_the_grammar_is_its_word(rt: HostRuntime) -> Result<(), Fail> {
    const NAMES: &str = "\
empty span yearly monthly weekly daily hourly minutely secondly rrule event during pairs starts \
ends shift zoned zoned_first start after end before months weeks days hours minutes seconds \
interval week_start";
    const WORDS: &[Word] = &[
        Word::Empty,
        Word::Span,
        Word::Yearly,
        Word::Monthly,
        Word::Weekly,
        Word::Daily,
        Word::Hourly,
        Word::Minutely,
        Word::Secondly,
        Word::Rrule,
        Word::Event,
        Word::During,
        Word::Pairs,
        Word::Starts,
        Word::Ends,
        Word::Shift,
        Word::Zoned,
        Word::ZonedFirst,
        Word::Start,
        Word::After,
        Word::End,
        Word::Before,
        Word::Months,
        Word::Weeks,
        Word::Days,
        Word::Hours,
        Word::Minutes,
        Word::Seconds,
        Word::Interval,
        Word::WeekStart,
    ];
    let found = tokens(rt.alloc(), NAMES.as_bytes())?;
    assert_eq!(rt; found.len(), WORDS.len());
    for (token, word) in found.iter().zip(WORDS) {
        assert!(rt; matches!(token, Token::Word(w, _) if w == word), "{word:?}");
    }
    Ok(())
}
