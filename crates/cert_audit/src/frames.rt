ghost use Rattle.std.specs.Prelude.{◌≡◌};
ghost use Rattle.frame_core.specs.Frames.{HasPeriod, RepeatsIfFramed};
ghost use Rattle.cert_audit.specs.Lowered.{frame_of_ready, members_of};

use crate::ready::Ready;
use frame_core::Frame;
use search_core::tree_frame_laws;

/// From where on, and after how long, the positions of the tree repeat. None exactly where a rule
/// of the tree has no frame, or the least common period of two children is above `WIDTH`.
pub fn frame_of(r: &Ready) -> Option<Frame>
    ensures value { result ≡ frame_of_ready r.now }
    ensures period { HasPeriod result }
    ensures repeats { RepeatsIfFramed (members_of r.now) result }
{
    tree_frame_laws();
    r.frame
}
