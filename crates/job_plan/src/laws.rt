//! Laws of the plan of a job.

ghost use Rattle.job_outline.specs.Laws.{OutlineIsSingle, OutlinesHaveAModulus, OneSelection, OutlinesNeverSayMissing};
ghost use Rattle.job_plan.specs.Laws.{PlanIsSingle, PlansAgree, PlansNameDivisors, PlansNeverSayMissing};

use integral_index::Order;

/// The same outline and the same texts of its list files have one plan at most, modulo a number above 1. It
/// does nothing when it runs.
pub fn plan_is_single()
    ensures { PlanIsSingle }
{
    seed_sets::laws::one_list_ascends(Order::Standard);
    job_point::points_are_single();
}

/// Any two answers for the same outline and the same texts are the same, modulo a number above 1: the same plan, or
/// the same refusal but for the vector or the multipliers that show it; unless one of them names a divisor of
/// the modulus, which lies between 1 and it. So modulo a prime there is one answer. It does nothing when it
/// runs.
pub fn plans_agree()
    ensures agree { PlansAgree }
    ensures divisors { PlansNameDivisors }
{
    seed_sets::laws::one_list_ascends(Order::Standard);
    seed_sets::laws::no_list_is_longer(Order::Standard);
    job_point::points_agree();
}

/// Neither the trees and words of a job nor an outline and the texts of its list files are refused as a file that
/// is missing: only the loading of files says so. It does nothing when it runs.
pub fn jobs_never_say_missing()
    ensures outlines { OutlinesNeverSayMissing }
    ensures plans { PlansNeverSayMissing }
{
    job_outline::outlines_never_say_missing();
    list_schema::reading_never_says_missing();
    job_point::points_never_say_missing();
}
