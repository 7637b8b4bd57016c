//! Tests of lowered_tree: the moments of a list, and the frames of spans.

ghost use Rattle.std.specs.Prelude.{◌≡◌, ◌<◌};
ghost use Rattle.moment_core.specs.Line.{IsWorkingMoment};

use crate::given::set_of;
use cert_audit::{Ready, frame_of};
use frame_core::Frame;
use lowered_tree::{Leaf, Node};
use moment_core::{Moment, Pos, Step, Steps};
use std::alloc::Global;
use std::marker::Brand;
use std::process::Abort;
use std::sync::ledger::{Blank, Ledger};
use std::test::Fail;
use stored_pair::Book;

/// Whether the moment is a member, and the candidates next to it, after it and before it.
fn asked<F: Leaf, L: Ledger>(leaf: &F, t: Moment, blank: Blank) -> (bool, Step, Step)
    requires moment { IsWorkingMoment t.0 }
    requires name { blank.name ≡ L.name }
    requires parts { blank.parts ≡ L.parts }
    requires some { 0 < blank.parts }
{
    let mut steps = Steps::<L>::new(blank);
    let member = leaf.test(t, &mut steps);
    let after = leaf.after(t, &mut steps);
    (member, after, leaf.before(t, &mut steps))
}

fn tells<F: Leaf>(rt: &impl Abort, leaf: &F, t: Moment, want: (bool, Step, Step))
    requires { IsWorkingMoment t.0 }
{
    let blank = Blank::new(1);
    assert_eq!(rt; asked::<F, Brand>(leaf, t, blank), want, "at {t:?}");
}

#[test]
fn the_moments_next_to_one_are_found_in_a_list_without_order(rt: HostRuntime) -> Result<(), Fail> {
    const TEXT: &str = "{1970-01-01T00:00:05, 1970-01-01T00:00:00, 1970-01-01T00:00:03}";
    let set = set_of(&rt, rt.alloc(), TEXT);
    let book = Book::empty(rt.alloc());
    let Node::List(moments) = Node::lower(rt.alloc(), &set, &book)? else {
        panic!(&rt; "a list is lowered to a list");
    };
    let hit = |t: i64| Step::Hit(Moment(t));
    tells(&rt, &moments, Moment(-1), (false, hit(0), Step::End));
    tells(&rt, &moments, Moment(0), (true, hit(3), Step::End));
    tells(&rt, &moments, Moment(4), (false, hit(5), hit(3)));
    tells(&rt, &moments, Moment(5), (true, Step::End, hit(3)));
    Ok(())
}

/// The set stays as it is from `hi` upwards and from `lo` downwards.
fn stays(rt: &impl Abort, alloc: Global, text: &str, hi: i64, lo: i64) -> Result<(), Fail> {
    let set = set_of(rt, alloc, text);
    let book = Book::empty(alloc);
    let ready = Ready::make(alloc, &set, &book)?;
    let frame = Frame {
        lo: Pos(lo),
        hi: Pos(hi),
        period: 1,
    };
    assert_eq!(rt; frame_of(&ready), Some(frame), "{text}");
    Ok(())
}

#[test]
fn each_kind_of_span_and_an_inverse_have_their_frames(rt: HostRuntime) -> Result<(), Fail> {
    const ROWS: &[(&str, i64, i64)] = &[
        (
            "span(start 1970-01-01T00:00:00, before 1970-01-01T00:00:05)",
            10,
            -1,
        ),
        (
            "span(after 1970-01-01T00:00:05, end 1970-01-01T00:00:09)",
            19,
            10,
        ),
        ("span(start 1970-01-01T00:00:00)", 0, -1),
        ("span(before 1970-01-01T00:00:09)", 18, 17),
        ("span()", -754_838_438_400, 506_232_806_398),
        ("!{2003-01-01T00:00:00}", 2_082_758_401, 2_082_758_399),
    ];
    for (text, hi, lo) in ROWS {
        stays(&rt, rt.alloc(), text, *hi, *lo)?;
    }
    Ok(())
}
