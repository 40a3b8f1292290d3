// Laws on single steps in the run of a replay module: how the run goes on, and how it ends.

ghost use Rattle.generated_code_laws.specs.SingleStepLaws.{LeadsEnd, LeadsShow, StepsLeadOn};

use replay_run_spec::{items_show_projections, projections_run_along};

/// A run that leads to a place from which it ends, ends, and shows the items before that place and then those after
/// it.
pub fn leads_go_on()
    ensures shows { LeadsShow }
    ensures ends { LeadsEnd }
{
    items_show_projections();
}

/// One step leads on, ends the run, or is stuck: in a function outside the original it shows its step, its changes and
/// what its entries show, in a function of the original what its entries show.
pub fn steps_lead_on()
    ensures { StepsLeadOn }
{
    projections_run_along();
}
