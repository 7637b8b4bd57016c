ghost use Rattle.walk_report.specs.Laws.{AmpleReportsNeverStop, EnoughReportsNeverStop, ReportsAreUnique, ReportsExist, ReportsGoOn, ReportsTellWindows};

use run_search::run_laws;
use span_core::answer_laws;
use walk_core::{ample_step_laws, items_laws, step_laws};

/// From each token that fits there is a report of a tree of lawful rules, and one alone but for
/// stops. The items that were written, then what is left past them, are what was left before, and
/// in a window its items. No report stops for an ample budget.
pub fn report_laws()
    ensures exist { ReportsExist }
    ensures unique { ReportsAreUnique }
    ensures goes_on { ReportsGoOn }
    ensures windows { ReportsTellWindows }
    ensures ample { AmpleReportsNeverStop }
    ensures enough { EnoughReportsNeverStop }
{
    answer_laws();
    run_laws();
    items_laws();
    step_laws();
    ample_step_laws();
}
