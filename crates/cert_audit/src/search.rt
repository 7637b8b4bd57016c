ghost use Rattle.std.specs.Prelude.{◌≡◌, ◌≤◌};
ghost use Rattle.moment_core.specs.Line.{IsCalendarPosition};
ghost use Rattle.span_core.specs.Answers.{end_of};
ghost use Rattle.cert_audit.specs.Lowered.{window_of_ready};
ghost use Rattle.cert_audit.specs.Searches.{AnswersAt, unchanged};

use crate::frames::frame_of;
use crate::ready::Ready;
use frame_core::{window, window_laws};
use moment_core::{Dir, HIGH, LOW, Pos, Steps, Window};
use node_turns::with_candidate;
use search_core::{candidate_laws, tree_frame_laws};
use span_core::{Answer, Stop};
use std::sync::ledger::Ledger;

/// Looks for the nearest position past `p`, in the direction, whose membership differs, asking
/// every node anew at each step.
///
/// `At`, `None` and `Edge` are the answer. `Budget` with node 0 comes only where nothing differs
/// from `p` up to the stop, which is not past the search's end, and at least `budget` candidates
/// lie between. With another node it comes only where that one had to look back from a place of
/// the search, with as many candidates and no member on the way.
pub fn sweep<L: Ledger>(r: &Ready, p: Pos, dir: Dir, budget: u64, steps: &mut Steps<L>) -> Answer
    requires range { IsCalendarPosition p.0 }
    requires budget { 1 ≤ budget }
    ensures answer { AnswersAt r.now p.0 dir budget result }
    ensures counted { steps.old ≤ steps.new }
{
    tree_frame_laws();
    window_laws();
    candidate_laws();
    let window = window_of(r, p, dir);
    let end = search_end(window, dir);
    let here = match r.holds(p, budget, steps) {
        Ok(here) => here,
        Err(stop) => return Answer::Budget(stop),
    };
    let mut place = p;
    let mut passed = 0;
    'turns: loop {
        let Some(turn) = r.next_turn(place, dir, end, steps) else {
            return without_change(window);
        };
        let there = match r.holds(turn.place, budget, steps) {
            Ok(there) => there,
            Err(stop) => return Answer::Budget(stop),
        };
        if there != here {
            return Answer::At(turn.place);
        }
        passed = with_candidate(passed, dir, p, place, turn);
        place = turn.place;
        if budget <= passed {
            return Answer::Budget(Stop { at: place, node: 0 });
        }
    }
}

/// The window that the search ends with, where there is one.
fn window_of(r: &Ready, p: Pos, dir: Dir) -> Option<Window>
    ensures { result ≡ window_of_ready r.now dir p.0 }
{
    match frame_of(r) {
        Some(frame) => window(frame, p, dir),
        None => None,
    }
}

/// The answer where nothing differs.
fn without_change(window: Option<Window>) -> Answer
    ensures { result ≡ unchanged window }
{
    match window {
        Some(window) => Answer::None(window),
        None => Answer::Edge,
    }
}

/// Where the search ends: with the window, or with the calendar range.
fn search_end(window: Option<Window>, dir: Dir) -> Pos
    ensures { result.0 ≡ end_of dir (unchanged window) }
{
    match (window, dir) {
        (Some(window), Dir::Fore) => window.hi,
        (Some(window), Dir::Back) => window.lo,
        (None, Dir::Fore) => Pos(2 * HIGH),
        (None, Dir::Back) => Pos(2 * LOW),
    }
}
