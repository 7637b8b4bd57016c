ghost use Rattle.std.specs.Prelude.{◌≡◌, ◌≤◌, ◌↔◌, ◌∷◌, List};
ghost use Rattle.moment_core.specs.Line.{IsCalendarPosition};
ghost use Rattle.span_core.specs.Answers.{IsCalendarItem};
ghost use Rattle.span_core.specs.Tokens.{IsFit};
ghost use Rattle.span_core.specs.declared.answers.Item.TheVariants.{Run as Given};
ghost use Rattle.span_core.specs.declared.bounds.Run.{Run};
ghost use Rattle.search_core.specs.Lawful.{AreLawful};
ghost use Rattle.plan_core.specs.Plans.{meant_of_plan};
ghost use Rattle.walk_core.specs.Endless.{IsItemForEver};
ghost use Rattle.walk_core.specs.Items.{IsHonest};
ghost use Rattle.walk_core.specs.Tokens.{window_token};
ghost use Rattle.walk_core.specs.Walks.{AreItemsOf, AreLeftOf, IsAmpleForStep, IsNoStop, StepsOf, meant_of_walk, members_of_walk, token_of_walk};

use crate::steps::{Found, step_from};
use crate::tokens::window_token;
use cert_audit::ready_laws;
use frame_core::window_laws;
use moment_core::{Dir, Pos, Steps, Window};
use plan_core::Plan;
use run_search::endless_laws;
use span_core::{Item, Token, answer_laws, is_up_to};
use std::marker::Model;
use std::sync::ledger::Ledger;

/// A place from which a walk may go on. Contracts see its token.
#[derive(Drop)]
struct Place {
    token: Token,
}

impl Model for Place {
    ghost use Rattle.span_core.specs.declared.answers.Token.{Token};
    ghost use Rattle.span_core.specs.Tokens.{IsFit};

    ghost Value = { Token };

    ghost view = { λ p. p.token };

    ghost invariant = { λ p. IsFit p.token };
}

impl Place {
    fn of(token: Token) -> Place
        requires { IsFit token }
        ensures { result ≡ token }
    {
        Place { token }
    }

    fn token(&self) -> Token
        ensures value { result ≡ self.now }
        ensures fit { IsFit result }
    {
        self.token
    }
}

/// A walk over the items of a set, from one place to another in a direction. It takes no memory.
#[derive(Drop)]
pub struct Walk<'p, 'b> {
    plan: &'p mut Plan<'b>,
    at: Place,
}

impl<'p, 'b> Walk<'p, 'b> {
    /// A walk over the items of a window, in the direction. A window with its ends the wrong way
    /// round has none.
    pub fn start(plan: &'p mut Plan<'b>, w: Window, dir: Dir) -> Walk<'p, 'b>
        requires lo { IsCalendarPosition w.lo.0 }
        requires hi { IsCalendarPosition w.hi.0 }
        ensures same_reference { result.plan.ghost_name ≡ plan.entry.ghost_name }
        ensures meant { meant_of_walk result ≡ meant_of_plan plan.old }
        ensures token { token_of_walk result ≡ window_token w dir }
        ensures items { (runs : List Run) →
            AreLeftOf (meant_of_walk result) (token_of_walk result) runs
            ↔ AreItemsOf (meant_of_plan plan.old) w dir runs }
        ensures honest { IsHonest (members_of_walk result) (token_of_walk result) }
    {
        Walk::resume(plan, window_token(w, dir))
    }

    /// A walk that goes on from a token.
    pub fn resume(plan: &'p mut Plan<'b>, t: Token) -> Walk<'p, 'b>
        requires fit { IsFit t }
        ensures same_reference { result.plan.ghost_name ≡ plan.entry.ghost_name }
        ensures meant { meant_of_walk result ≡ meant_of_plan plan.old }
        ensures token { token_of_walk result ≡ t }
    {
        plan.begin(first_place(t), t.dir);
        Walk {
            plan,
            at: Place::of(t),
        }
    }

    /// The next item.
    ///
    /// `Run` is the first item that is left. `Done` comes where none is: `To` where the window's
    /// end was reached, `None` where nothing follows for ever, `Edge` where nothing follows up to
    /// the end of the calendar range. `Budget` comes only where a search stops, from the walk's
    /// place or from the nearest change past it; its token is the walk's place then, from which the
    /// same items are left.
    pub fn step<L: Ledger>(&mut self, budget: u64, steps: &mut Steps<L>) -> Item
        requires budget { 1 ≤ budget }
        ensures answer { StepsOf (meant_of_walk self.old) budget (token_of_walk self.old) result
            (token_of_walk self.new) }
        ensures rest { (run : Run) → result ≡ Given run → (runs : List Run)
            → AreLeftOf (meant_of_walk self.old) (token_of_walk self.new) runs
            → AreLeftOf (meant_of_walk self.old) (token_of_walk self.old) (run ∷ runs) }
        ensures complete { IsAmpleForStep (meant_of_walk self.old) (token_of_walk self.old) budget
            → IsNoStop result }
        ensures for_ever { IsHonest (members_of_walk self.old) (token_of_walk self.old)
            → IsItemForEver (members_of_walk self.old) (token_of_walk self.old) result }
        ensures honest { IsHonest (members_of_walk self.old) (token_of_walk self.old)
            → IsHonest (members_of_walk self.old) (token_of_walk self.new) }
        ensures in_range { IsCalendarItem result }
        ensures same_reference { self.new.plan.ghost_name ≡ self.old.plan.ghost_name }
        ensures same { meant_of_walk self.new ≡ meant_of_walk self.old }
        ensures counted { steps.old ≤ steps.new }
    {
        ready_laws(self.plan.ready());
        endless_laws();
        window_laws();
        answer_laws();
        let stepped = step_from(self.plan, self.at.token(), budget, steps);
        self.at = Place::of(stepped.next);
        match stepped.found {
            Found::Given(run) => Item::Run(run),
            Found::Done(why) => Item::Done(why),
            Found::Stopped(_) => Item::Budget(stepped.next),
        }
    }

    /// The token of the walk's place, from which it can be resumed.
    pub fn token(&self) -> Token
        ensures value { result ≡ token_of_walk self.now }
        ensures fit { IsFit result }
    {
        self.at.token()
    }
}

/// Where the searches of a walk begin: at its place, or at its end where the place is past it.
fn first_place(t: Token) -> Pos
    requires { IsFit t }
    ensures { IsCalendarPosition result.0 }
{
    if is_up_to(t.dir, t.end, t.place) {
        t.place
    } else {
        t.end
    }
}

/// The rules of a walk's tree are lawful.
pub fn walk_laws(walk: &Walk<'_, '_>)
    ensures lawful { AreLawful (meant_of_walk walk.now) }
{
    ready_laws(walk.plan.ready());
}
