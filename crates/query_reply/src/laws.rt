//! The laws of replies, for proofs that cite them.

ghost use Rattle.query_reply.specs.Laws.{AmpleRepliesNeverStop, AnsweredTextsAreShort, LongFrontsDecide, RefusedTextsHaveOneReply, RepliesAreDone, RepliesAreUnique, RepliesExist};

use cert_audit::{lawful_laws, settle_laws};
use expr_text::reading_laws;
use expr_tree::tree_laws;
use query_core::{budget_laws, endless_laws, neighbour_laws};
use search_core::ample_laws;
use walk_core::step_laws;
use walk_report::report_laws;

/// A query in its range has a reply over each text, and one alone but for stops; a refusal is
/// alone. The status of a reply is 0, 2 or 3, and not 3 for an ample budget. The first bytes of a
/// text decide, if they are more than a text may have, and one that isn't refused has no more.
pub fn reply_laws()
    ensures exist { RepliesExist }
    ensures unique { RepliesAreUnique }
    ensures alone { RefusedTextsHaveOneReply }
    ensures done { RepliesAreDone }
    ensures ample { AmpleRepliesNeverStop }
    ensures fronts { LongFrontsDecide }
    ensures short { AnsweredTextsAreShort }
{
    reading_laws();
    lawful_laws();
    settle_laws();
    tree_laws();
    ample_laws();
    budget_laws();
    endless_laws();
    neighbour_laws();
    step_laws();
    report_laws();
}
