//! What refuses a text.

ghost use Rattle.std.specs.Prelude.{◌≡◌, IfSome, option_map};
ghost use Rattle.expr_text.specs.Fault.{fault_in};
ghost use Rattle.query_reply.specs.Effects.{IsWritten};
ghost use Rattle.query_reply.specs.Refusals.{text_refusal};
ghost use Rattle.query_reply.specs.Report.{refused_by};
ghost use Rattle.report_text.specs.Refusals.{IsPrintable};

use crate::writing::put;
use expr_text::TextFault;
use outside_core::Sink;
use report_text::{Refusal, line_refusal};
use rrule_text::RruleFault;

/// The refusal of a text with this fault. None for want of memory, which is no fault of the text.
pub(crate) fn text_refusal(fault: TextFault) -> Option<Refusal>
    ensures value { result ≡ option_map text_refusal (fault_in fault) }
    ensures printable { IfSome result IsPrintable }
{
    match fault {
        TextFault::Long => Some(Refusal::Long),
        TextFault::Token { byte } => Some(Refusal::Token(byte)),
        TextFault::Unbuilt => Some(Refusal::Unbuilt),
        TextFault::Syntax => Some(Refusal::Syntax),
        TextFault::Moment { byte } => Some(Refusal::Moment(byte)),
        TextFault::Rule(fault) => Some(Refusal::Rule(fault)),
        TextFault::Rrule(RruleFault::Syntax) => Some(Refusal::RruleSyntax),
        TextFault::Rrule(RruleFault::Repeated(part)) => Some(Refusal::RruleRepeated(part)),
        TextFault::Rrule(RruleFault::Rule(fault)) => Some(Refusal::Rrule(fault)),
        TextFault::Sort(fault) => Some(Refusal::Sort(fault)),
        TextFault::Rrule(RruleFault::Memory) | TextFault::Memory => None,
    }
}

/// Writes the line of a refusal by one call, with status 2, or 5 where the write failed.
pub fn refuse<K: Sink>(refusal: Refusal, sink: &mut K) -> u8
    requires { IsPrintable refusal }
    ensures { IsWritten K.Sink sink.old sink.new (refused_by refusal) result }
{
    put(sink, line_refusal(refusal).bytes(), 2)
}
