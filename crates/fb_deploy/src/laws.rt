//! Laws of plans.
ghost use Rattle.fb_deploy.specs.{Laws.{OnePlan, PlanIsLocal}, Plans.{HasPlanByText, PlanAtIsLocal, PlanAtIsPlan, PlanAtOfSystems, PlanIsUnchanged}};

/// A system has one plan only.
pub fn one_plan()
    ensures { OnePlan }
{}

/// The plan of a system depends only on the texts that the system rests on.
pub fn plan_is_local()
    ensures { PlanIsLocal }
{}

/// Whether a unit has a plan follows from its own text.
pub fn has_plan_by_text()
    ensures { HasPlanByText }
{}

/// A plan is computed for systems, and for nothing else.
pub fn plan_at_of_systems()
    ensures { PlanAtOfSystems }
{}

/// The computed plan is the one plan of the system.
pub fn plan_at_is_plan()
    ensures { PlanAtIsPlan }
{}

/// The computed plan depends only on the texts that the unit rests on.
pub fn plan_at_is_local()
    ensures { PlanAtIsLocal }
{}

/// Texts that leave the net of a system unchanged leave its plan unchanged.
pub fn plan_is_unchanged()
    ensures { PlanIsUnchanged }
{}
