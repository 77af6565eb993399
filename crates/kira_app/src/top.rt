//! The call that the program makes.

ghost use Rattle.std.specs.Prelude.{◌≡◌, ◌≢◌, ◌⊎◌, ◌≤◌, ◌<◌, [], codes, Some, None, Ok, Err, map, option_map, IfOk, OnOk, IfErr, ℕ, List};
ghost use Rattle.std.specs.String.{string_bytes};
ghost use Rattle.yaml_text.specs.Lines.{Bytes};
ghost use Rattle.input_schema.specs.declared.faults.InputFault.{InputFault};
ghost use Rattle.field_word.specs.declared.Composite.{Composite as CompositeValue};
ghost use Rattle.job_point.specs.declared.faults.Singular.{Singular};
ghost use Rattle.job_point.specs.declared.faults.Excess.{Excess};
ghost use Rattle.kira_outside.specs.Faults.{Rose};
ghost use Rattle.kira_outside.specs.Held.{Held};
ghost use Rattle.table_text.specs.Sending.{sent, IsPrefixSent};
ghost use Rattle.kira_app.specs.declared.status.Status.{Status as StatusValue};
ghost use Rattle.kira_app.specs.Steps.{plain};
ghost use Rattle.kira_app.specs.Message.{message_text, usage_line, IsToldOf};
ghost use Rattle.kira_app.specs.Told.{IfTold, Tells, IsMissed, IsCounted};
ghost use Rattle.kira_app.specs.Words.{AsksCall, AsksHelp, AsksUsage, AsksJob, AsksUnserved, AreAnswered, IsServedJob};
ghost use Rattle.kira_app.specs.Plans.{PlanOf};
ghost use Rattle.kira_app.specs.Loads.{AllLoaded, SomeLoaded};
ghost use Rattle.kira_app.specs.TopClauses.{IsTextOf, IsSent, IsPartlySent, TakesUnits, StandsStill, HavePlan, AreRefused, IsDivisorIn, IsStopped, IsPrime, HasCause, HasEnded, HasShown, IsExplained, IsAnsweredBy};

use crate::laws::jobs_agree;
use crate::loading::sources;
use crate::message::usage_line;
use crate::reduction::table_of;
use crate::words::{ServedJob, Wanted, read_words};
use crate::{Refusal, Status, tell};
use job_plan::{Plan, jobs_never_say_missing};
use kira_outside::{Files, Sink};
use std::alloc::Global;
use std::sync::ledger::Ledger;
use step_counter::Steps;
use table_text::send;

// The plan that the job of some words and the files give.
fn plan_of<F: Files>(alloc: Global, job: &ServedJob, files: &mut F) -> Result<Plan, Refusal>
    ensures plan { (words : List Bytes) → IsServedJob words job.now → Tells (F.held files.old) (F.faults files.old) (F.faults files.new) (PlanOf words) result }
    ensures missing { IfErr result (λ refusal. IsMissed (F.held files.old) (F.faults files.old) (F.faults files.new) refusal.status) }
    ensures loads { (words : List Bytes) → IsServedJob words job.now → OnOk result (AllLoaded words (F.held files.old) (F.loaded files.old) (F.loaded files.new)) }
    ensures loads_some { (words : List Bytes) → IsServedJob words job.now → SomeLoaded words (F.held files.old) (F.loaded files.old) (F.loaded files.new) }
    ensures same { F.held files.new ≡ F.held files.old }
{
    jobs_never_say_missing();
    let sources = sources(alloc, job.job_file, &job.overrides, files)?;
    sources.plan(&job.overrides)
}

// The whole of the call for a job of some words, but for its message.
fn ended<F: Files, O: Sink, L: Ledger>(
    alloc: Global,
    job: &ServedJob,
    files: &mut F,
    out: &mut O,
    steps: &mut Steps<L>,
) -> Result<(), Refusal>
    ensures cause { (words : List Bytes) → IsServedJob words job.now → HasEnded (record {
      words = words;
      held = F.held files.old;
      faults = F.faults files.old;
      faults_after = F.faults files.new;
      told = O.told out.old;
      told_after = O.told out.new;
      out_faults = O.faults out.old;
      out_faults_after = O.faults out.new;
      steps = steps.old;
      steps_after = steps.new;
    }) result }
    ensures missing { IfErr result (λ refusal. IsMissed (F.held files.old) (F.faults files.old) (F.faults files.new) refusal.status) }
    ensures loads { (words : List Bytes) → IsServedJob words job.now → OnOk result (AllLoaded words (F.held files.old) (F.loaded files.old) (F.loaded files.new)) }
    ensures loads_some { (words : List Bytes) → IsServedJob words job.now → SomeLoaded words (F.held files.old) (F.loaded files.old) (F.loaded files.new) }
    ensures still { IfErr result (λ refusal. StandsStill steps.old steps.new refusal.status) }
    ensures silent { IfErr result (λ refusal. refusal.status ≢ Status.WriteFault → out.new ≡ out.old) }
    ensures same { F.held files.new ≡ F.held files.old }
{
    jobs_agree();
    let plan = plan_of(alloc, job, files)?;
    match table_of(alloc, &plan, steps) {
        Ok(bytes) => match send(&bytes, out) {
            Ok(()) => Ok(()),
            Err(_) => Err(Refusal::plain(alloc, Status::WriteFault)),
        },
        Err(status) => Err(Refusal::plain(alloc, status)),
    }
}

// The refusal of words that no job is read for.
fn refused<F: Files, O: Sink, L: Ledger>(
    alloc: Global,
    words: &[String],
    status: Status,
    files: &F,
    out: &O,
    steps: &Steps<L>,
) -> Refusal
    requires { AreAnswered (map string_bytes words.now) status }
    ensures cause { HasEnded (record {
      words = map string_bytes words.now;
      held = F.held files.now;
      faults = F.faults files.now;
      faults_after = F.faults files.now;
      told = O.told out.now;
      told_after = O.told out.now;
      out_faults = O.faults out.now;
      out_faults_after = O.faults out.now;
      steps = steps.now;
      steps_after = steps.now;
    }) (Err result) }
    ensures plain { result ≡ plain status }
{
    Refusal::plain(alloc, status)
}

/// Reduces the job that the words and the files ask for, and writes its table to `out`.
///
/// The words are options and positionals: the name of the job file, and then words NAME=VALUE that override
/// values of its numeric point. The one word `--help` asks for the usage line alone. The files are the job
/// file, `config/integralfamilies.yaml`, `config/kinematics.yaml` and the list files that the job names. At
/// `Ok` the whole text of the one reduced list of the seeded equations was written and flushed. At every other
/// answer its message is written to `err`; nothing is written to `out` before the whole text is made. The
/// equations are reduced sector by sector, and the forward elimination of each takes one of the steps.
pub fn kira_alone<F: Files, O: Sink, E: Sink, L: Ledger>(
    alloc: Global,
    words: &[String],
    files: &mut F,
    out: &mut O,
    err: &mut E,
    steps: &mut Steps<L>,
) -> Status
    // The table clause: the reduced list exists, and the text of every reduced list was sent.
    ensures table { AsksCall (map string_bytes words.now) → result ≡ Status.Ok → IfTold (F.held files.old) (HavePlan (map string_bytes words.now) (IsSent (O.told out.old) (O.told out.new))) }
    ensures ok_counts { result ≡ Status.Ok → (F.faults files.new ≡ F.faults files.old) × (O.faults out.new ≡ O.faults out.old) }
    ensures ok_err { result ≡ Status.Ok → err.new ≡ err.old }

    // Where a table was sent, or a prefix of it, each unit of its equations took one step.
    ensures steps { AsksCall (map string_bytes words.now) → (result ≡ Status.Ok) ⊎ (result ≡ Status.WriteFault)
        → IfTold (F.held files.old) (HavePlan (map string_bytes words.now) (TakesUnits steps.old steps.new)) }
    ensures no_steps { ¬ (AsksJob (map string_bytes words.now)) → steps.new ≡ steps.old }
    ensures still { StandsStill steps.old steps.new result }

    // For `--help` the usage line was sent, or a prefix of it where the count rose.
    ensures help { AsksHelp (map string_bytes words.now) → HasShown result (O.told out.old) (O.told out.new) (O.faults out.old) (O.faults out.new) }

    // Each other answer comes by its cause.
    ensures usage { result ≡ Status.Usage → AsksUsage (map string_bytes words.now) }
    ensures not_yet { result ≡ Status.NotYet → AsksUnserved (map string_bytes words.now) }
    ensures input { (fault : InputFault) → result ≡ Status.Input fault → IfTold (F.held files.old) (AreRefused (map string_bytes words.now) (Status.Input fault)) }
    ensures missing { IsMissed (F.held files.old) (F.faults files.old) (F.faults files.new) result }
    ensures singular { (cause : Singular) → result ≡ Status.Singular cause → IfTold (F.held files.old) (AreRefused (map string_bytes words.now) (Status.Singular cause)) }
    ensures rules_clash { (multipliers : List ℕ) (residue : ℕ) → result ≡ Status.RulesClash multipliers residue
        → IfTold (F.held files.old) (AreRefused (map string_bytes words.now) (Status.RulesClash multipliers residue)) }
    ensures too_many { (what : Excess) (count : ℕ) → result ≡ Status.TooMany what count
        → IfTold (F.held files.old) (AreRefused (map string_bytes words.now) (Status.TooMany what count)) }
    ensures composite { (fault : CompositeValue) → result ≡ Status.Composite fault → IfTold (F.held files.old) (IsStopped (map string_bytes words.now) fault) }
    ensures divisor { (fault : CompositeValue) → result ≡ Status.Composite fault → IfTold (F.held files.old) (IsDivisorIn (map string_bytes words.now) fault.divisor) }
    ensures read_fault { result ≡ Status.ReadFault → Rose (F.faults files.old) (F.faults files.new) }
    ensures write_fault { AsksCall (map string_bytes words.now) → result ≡ Status.WriteFault → IfTold (F.held files.old) (HavePlan (map string_bytes words.now) (IsPartlySent (O.told out.old) (O.told out.new))) }
    ensures counted { IsCounted (F.held files.old) (F.faults files.old) (F.faults files.new) result }
    ensures out_failed { result ≡ Status.WriteFault → Rose (O.faults out.old) (O.faults out.new) }

    // And where the cause is there, the answer comes.
    ensures words_first { AsksUsage (map string_bytes words.now) → (result ≡ Status.Usage) ⊎ (result ≡ Status.OutOfMemory) }
    ensures not_served { AsksUnserved (map string_bytes words.now) → (result ≡ Status.NotYet) ⊎ (result ≡ Status.OutOfMemory) }
    ensures first_refusal { (held : Held) (refusal : StatusValue) → F.held files.old ≡ Some held → AreRefused (map string_bytes words.now) refusal held
        → ¬ (Rose (F.faults files.old) (F.faults files.new)) → IsAnsweredBy (map string_bytes words.now) held refusal result }

    // The files of the job are loaded in order, each once: all of them at `Ok`, and the first of them at any other answer.
    ensures loads { AsksJob (map string_bytes words.now) → result ≡ Status.Ok → AllLoaded (map string_bytes words.now) (F.held files.old) (F.loaded files.old) (F.loaded files.new) }
    ensures loads_some { AsksJob (map string_bytes words.now) → SomeLoaded (map string_bytes words.now) (F.held files.old) (F.loaded files.old) (F.loaded files.new) }

    // Nothing is written before the whole text is made.
    ensures silent { result ≢ Status.Ok → result ≢ Status.WriteFault → out.new ≡ out.old }
    ensures message { result ≢ Status.Ok → IsExplained (map string_bytes words.now) (F.held files.old) result (E.told err.old) (E.told err.new) (E.faults err.old) (E.faults err.new) }
    ensures unread { ¬ (AsksJob (map string_bytes words.now)) → files.new ≡ files.old }
    ensures same_files { F.held files.new ≡ F.held files.old }

    // Where the job has a plan, the modulus is prime and nothing outside fails, there is a table.
    ensures complete { (held : Held) → F.held files.old ≡ Some held → HavePlan (map string_bytes words.now) (λ plan. IsPrime plan.modulus) held
        → ¬ (Rose (F.faults files.old) (F.faults files.new)) → ¬ (Rose (O.faults out.old) (O.faults out.new))
        → (result ≡ Status.Ok) ⊎ (result ≡ Status.OutOfMemory) }
{
    jobs_agree();
    match read_words(alloc, words) {
        Wanted::Help => match send(usage_line().as_bytes(), out) {
            Ok(()) => Status::Ok,
            Err(_) => {
                tell(&Refusal::plain(alloc, Status::WriteFault), "", err);
                Status::WriteFault
            }
        },
        Wanted::Refused(status) => {
            let refusal = refused(alloc, words, status, files, out, steps);
            tell(&refusal, "", err);
            refusal.status
        }
        Wanted::Job(job) => match ended(alloc, &job, files, out, steps) {
            Ok(()) => Status::Ok,
            Err(refusal) => {
                tell(&refusal, job.job_file, err);
                refusal.status
            }
        },
    }
}
