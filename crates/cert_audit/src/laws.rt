ghost use Rattle.search_core.specs.Lawful.{AreLawful};
ghost use Rattle.cert_audit.specs.Lowered.{meant_of_ready};

use crate::ready::Ready;

/// The rules of a tree made ready are lawful.
pub fn ready_laws(r: &Ready)
    ensures lawful { AreLawful (meant_of_ready r.now) }
{}
