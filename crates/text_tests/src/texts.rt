//! Tests of expr_text, which stands on expr_grammar, and of expr_print.

use expr_print::{write_expr, write_program};
use expr_text::{TextFault, read_program};
use expr_tree::{Expr, SortFault};
use std::alloc::{AllocError, Global};
use std::process::Abort;
use std::test::Fail;
use stored_pair::Book;

#[test]
fn a_set_is_printed(rt: HostRuntime) -> Result<(), Fail> {
    let printed = write_expr(rt.alloc(), &Expr::Empty)?;
    assert_eq!(rt; printed.as_slice(), "empty()".as_bytes());
    Ok(())
}

/// The printed form of what the text is read as.
fn shown(alloc: Global, text: &str) -> Result<Vec<u8>, TextFault> {
    let book = Book::empty(alloc);
    let program = read_program(alloc, text.as_bytes(), &book)?;
    Ok(write_program(alloc, &program)?)
}

/// The text is refused by this fault, or read where there is none.
fn is_refused(rt: &impl Abort, alloc: Global, text: &str, fault: Option<TextFault>) {
    assert_eq!(rt; shown(alloc, text).err(), fault, "{text}");
}

/// A span between so many signs and so many that close them.
fn nested(alloc: Global, depth: usize, sign: &str, close: &str) -> Result<String, AllocError> {
    let signs = sign.repeat(alloc, depth)?;
    let closes = close.repeat(alloc, depth)?;
    [signs.as_str(), "span()", closes.as_str()].concat(alloc)
}

#[test]
fn brackets_and_signs_nest_128_deep(rt: HostRuntime) -> Result<(), Fail> {
    const ROWS: &[(usize, &str, &str, Option<TextFault>)] = &[
        (128, "(", ")", None),
        (129, "(", ")", Some(TextFault::Syntax)),
        (127, "!", "", None),
        (128, "!", "", Some(TextFault::Sort(SortFault::Depth))),
        (129, "!", "", Some(TextFault::Syntax)),
        (128, "starts(", ")", Some(TextFault::Sort(SortFault::Depth))),
        (129, "starts(", ")", Some(TextFault::Syntax)),
    ];
    for (depth, sign, close, fault) in ROWS {
        let text = nested(rt.alloc(), *depth, sign, close)?;
        is_refused(&rt, rt.alloc(), text.as_str(), *fault);
    }
    Ok(())
}

const IN_BRACKETS: &str = "\
!(empty( )|{2024-01-01T00:00:00, 2024-01-02T00:00:00Z}\
-span(start 2024-01-01T00:00:00,end 2024-01-02T00:00:00)&span(after 2024-01-01T00:00:00)\
&span(before 2024-01-02T00:00:00)&span())";

/// The `T` of each moment of the program in brackets, at which no token begins, and the end without
/// which it is no moment. The numbers are python3's, from the text by a pattern of moments.
const MOMENTS: &[(usize, usize)] = &[
    (22, 31),
    (43, 52),
    (76, 85),
    (100, 109),
    (132, 141),
    (165, 174),
];

/// Why the first so many bytes of the program in brackets are no program.
fn fault_of_beginning(length: usize) -> TextFault {
    for (t, end) in MOMENTS {
        if *t < length && length < *end {
            return TextFault::Token { byte: *t };
        }
    }
    TextFault::Syntax
}

#[test]
fn no_beginning_of_a_program_in_brackets_is_a_program(rt: HostRuntime) {
    let book = Book::empty(rt.alloc());
    for length in 0..183 {
        let Some(front) = IN_BRACKETS.as_bytes().get(..length) else {
            panic!(rt; "the text has 183 bytes");
        };
        let found = read_program(rt.alloc(), front, &book).err();
        assert_eq!(rt; found, Some(fault_of_beginning(length)));
    }
}

#[test]
fn too_long_and_too_large_texts_are_refused(rt: HostRuntime) -> Result<(), Fail> {
    let mut text = "span()|".repeat(rt.alloc(), 9362)?;
    is_refused(&rt, rt.alloc(), text.as_str(), Some(TextFault::Syntax));
    text.pop();
    is_refused(
        &rt,
        rt.alloc(),
        text.as_str(),
        Some(TextFault::Sort(SortFault::Nodes)),
    );
    text.push_str("    ")?;
    is_refused(&rt, rt.alloc(), text.as_str(), Some(TextFault::Long));
    Ok(())
}
