ghost use Rattle.std.specs.Prelude.{◌≡◌, IfErr, IfOk};
ghost use Rattle.std.specs.List.{AllByRecursion};
ghost use Rattle.expr_grammar.specs.Grammar.{Spells};
ghost use Rattle.expr_grammar.specs.Syntax.{all_places_of, forms_of, span_places};
ghost use Rattle.expr_text.specs.Accepted.{AreRead, IsMeant, IsRead, spelling};
ghost use Rattle.expr_tree.specs.WellFormed.{AreWellFormed};
ghost use Rattle.expr_text.specs.Fault.{HasNoInnerMemory};
ghost use Rattle.expr_text.specs.Faults.{Tokens};
ghost use Rattle.expr_text.specs.Phases.{AreTokens, IsInRange, Tells};
ghost use Rattle.expr_text.specs.Sorted.{trees_of_sorted, HaveSorts};
ghost use Rattle.expr_tokens.specs.Plain.{plains};
ghost use Rattle.expr_tree.specs.Tree.{trees_of};

use crate::building::make_all;
use crate::fault::{LONGEST, TextFault};
use crate::finding::{calls_unbuilt, first_nameless};
use crate::laws::reading_laws;
use crate::sorted::{SortedProgram, sort_all};
use expr_grammar::{ParseFault, SyntaxTrees, grammar_laws, parse};
use expr_tokens::{Token, TokenFault, tokens};
use expr_tree::Program;
use std::alloc::Global;
use stored_pair::Book;

/// The program of tokens that are spelled as syntax trees.
fn dated<'t, 'a>(
    alloc: Global,
    tokens: &'t [Token<'a>],
    trees: &SyntaxTrees,
    book: &Book,
) -> Result<SortedProgram, TextFault>
    requires in_range { AllByRecursion IsInRange (plains tokens.now) }
    requires spelled { Spells (forms_of trees.now) (plains tokens.now) }
    requires places { all_places_of trees.now ≡ span_places tokens.now }
    ensures answer { (found : Tokens) → AreTokens tokens.now found
        → Tells trees_of_sorted (IsMeant (spelling found (forms_of trees.now))) result }
    ensures sorts { IfOk result HaveSorts }
    ensures memory { IfErr result HasNoInnerMemory }
{
    grammar_laws();
    if let Some(byte) = first_nameless(tokens) {
        return Err(TextFault::Moment { byte });
    }
    let sets = make_all(alloc, trees)?;
    Ok(sort_all(sets, book)?)
}

/// The program that the tokens spell.
fn spelled<'t, 'a>(
    alloc: Global,
    tokens: &'t [Token<'a>],
    book: &Book,
) -> Result<SortedProgram, TextFault>
    requires { AllByRecursion IsInRange (plains tokens.now) }
    ensures answer { (found : Tokens) → AreTokens tokens.now found
        → Tells trees_of_sorted (AreRead found) result }
    ensures sorts { IfOk result HaveSorts }
    ensures memory { IfErr result HasNoInnerMemory }
{
    if calls_unbuilt(tokens) {
        return Err(TextFault::Unbuilt);
    }
    match parse(alloc, tokens) {
        Ok(trees) => dated(alloc, tokens, &trees, book),
        Err(ParseFault::Syntax) => Err(TextFault::Syntax),
        Err(ParseFault::Memory) => Err(TextFault::Memory),
    }
}

/// Reads a text of the expression language: one expression, or two with a `;` between them, each
/// with its sort.
///
/// The faults come in the order of `TextFault`, each over the whole text, and the first decides.
/// Want of memory can come at any place, and is `TextFault::Memory` wherever it comes.
pub fn read_sorted(alloc: Global, text: &[u8], book: &Book) -> Result<SortedProgram, TextFault>
    ensures answer { Tells trees_of_sorted (IsRead text.now) result }
    ensures well_formed { IfOk result (λ p. AreWellFormed (trees_of_sorted p)) }
    ensures sorts { IfOk result HaveSorts }
    ensures memory { IfErr result HasNoInnerMemory }
{
    reading_laws();
    if text.len() > LONGEST {
        return Err(TextFault::Long);
    }
    match tokens(alloc, text) {
        Ok(found) => spelled(alloc, &found, book),
        Err(TokenFault::Token { byte }) => Err(TextFault::Token { byte }),
        Err(TokenFault::Memory) => Err(TextFault::Memory),
    }
}

/// The same without the sorts.
pub fn read_program(alloc: Global, text: &[u8], book: &Book) -> Result<Program, TextFault>
    ensures answer { Tells trees_of (IsRead text.now) result }
    ensures well_formed { IfOk result (λ p. AreWellFormed (trees_of p)) }
    ensures memory { IfErr result HasNoInnerMemory }
{
    match read_sorted(alloc, text, book) {
        Ok(program) => Ok(program.program()),
        Err(fault) => Err(fault),
    }
}
