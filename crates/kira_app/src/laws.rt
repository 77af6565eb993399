//! The law of what the words and the files ask for, as the contract of a function that does nothing.

ghost use Rattle.kira_app.specs.Laws.{JobsAgree, JobsNameDivisors, JobsHaveOneModulus};

use job_plan::{outline_is_single, outlines_have_a_modulus, plans_agree};

/// Any two answers for the same words and files are alike: the same plan, or the same first refusal but for the
/// vector or the multipliers that show it; unless one of them names a divisor of the modulus. So modulo a
/// prime there is one answer. It does nothing when it runs.
pub fn jobs_agree()
    ensures agree { JobsAgree }
    ensures divisors { JobsNameDivisors }
    ensures modulus { JobsHaveOneModulus }
{
    outline_is_single();
    outlines_have_a_modulus();
    plans_agree();
}
