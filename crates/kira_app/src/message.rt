//! The message of a refusal.

ghost use Rattle.std.specs.Prelude.{◌≡◌, ◌≤◌, [], ◌∷◌, map, option_map, OnOk, OnErr};
ghost use Rattle.std.specs.List.{concat};
ghost use Rattle.kira_outside.specs.Faults.{Rose};
ghost use Rattle.kira_outside.specs.Stream.{appended};
ghost use Rattle.table_text.specs.Sending.{IsPrefixSent};
ghost use Rattle.kira_app.specs.Message.{file_name, line_pieces, fault_pieces, zero_pieces, dependent_pieces, singular_pieces, divisor_pieces, excess_text, line_of, usage_line, message_text, IsToldOf};

use crate::{Refusal, Status};
use itoa::Buffer;
use job_plan::{Excess, File, InputFault, Singular};
use kira_outside::Sink;
use table_text::{WriteFault, write_all};

/// Writes the message of a refusal. `job` is the name of the job file. It takes no memory; where writing
/// fails, a prefix of the message stands and the count of the sink rose.
pub fn tell<E: Sink>(refusal: &Refusal, job: &str, err: &mut E)
    ensures told { IsToldOf (message_text job.now refusal.now) (E.told err.old) (E.told err.new) (E.faults err.old) (E.faults err.new) }
    ensures never_falls { E.faults err.old ≤ E.faults err.new }
{
    let _ = write_message(refusal, job, err);
}

fn write_message<E: Sink>(refusal: &Refusal, job: &str, err: &mut E) -> Result<(), WriteFault>
    ensures written { OnOk result (E.told err.new ≡ option_map (appended (message_text job.now refusal.now)) (E.told err.old)) }
    ensures prefix { OnErr result (IsPrefixSent (message_text job.now refusal.now) (E.told err.old) (E.told err.new)) }
    ensures failed { OnErr result (Rose (E.faults err.old) (E.faults err.new)) }
    ensures never_falls { E.faults err.old ≤ E.faults err.new }
{
    let name = refusal.name.as_str();
    match &refusal.status {
        Status::Ok => write_pieces(&[b"kira: ", b"\n"], err),
        Status::Usage => write_all(usage_line().as_bytes(), err),
        Status::NotYet => write_text("not yet", err),
        Status::Input(fault) => write_fault(fault, file_name(job, name, fault.file), err),
        Status::Singular(cause) => write_singular(cause, job, name, err),
        Status::RulesClash { .. } => {
            write_text("the scalar product rules contradict each other", err)
        }
        Status::Composite(fault) => write_divisor(fault.divisor, err),
        Status::TooMany { what, .. } => write_text(excess_text(*what), err),
        Status::ReadFault => write_text("reading failed", err),
        Status::WriteFault => write_text("writing failed", err),
        Status::OutOfMemory => write_text("out of memory", err),
    }
}

/// The line that says how the program is called.
pub(crate) fn usage_line() -> &'static str
    ensures { result.now ≡ usage_line }
{
    "kira: usage: kira [-p N] [--save=FILE] [--save-limit=N] [--units=N] JOBFILE [NAME=VALUE]... or kira [-p N] --sample=N\n"
}

// How a message names a file. `list` is the name of the list file at fault.
fn file_name<'a>(job: &'a str, list: &'a str, file: File) -> &'a str
    ensures { result.now ≡ file_name job.now list.now file }
{
    match file {
        File::Words => "words",
        File::Jobs => job,
        File::Families => "config/integralfamilies.yaml",
        File::Kinematics => "config/kinematics.yaml",
        File::List(_) => list,
    }
}

// What there is too much of.
fn excess_text(what: Excess) -> &'static str
    ensures { result.now ≡ excess_text what }
{
    match what {
        Excess::Seeds => "more than 131072 seeds",
        Excess::Selected => "more than 131072 selected integrals",
        Excess::Terms => "more than 16777216 terms",
    }
}

// A line of one text.
fn write_text<E: Sink>(text: &str, err: &mut E) -> Result<(), WriteFault>
    ensures written { OnOk result (E.told err.new ≡ option_map (appended (line_of (text.now ∷ []))) (E.told err.old)) }
    ensures prefix { OnErr result (IsPrefixSent (line_of (text.now ∷ [])) (E.told err.old) (E.told err.new)) }
    ensures failed { OnErr result (Rose (E.faults err.old) (E.faults err.new)) }
    ensures never_falls { E.faults err.old ≤ E.faults err.new }
{
    write_pieces(&[b"kira: ", text.as_bytes(), b"\n"], err)
}

// A fault of an input, whose file has this name.
fn write_fault<E: Sink>(fault: &InputFault, name: &str, err: &mut E) -> Result<(), WriteFault>
    ensures written { OnOk result (E.told err.new ≡ option_map (appended (line_of (fault_pieces name.now fault.now))) (E.told err.old)) }
    ensures prefix { OnErr result (IsPrefixSent (line_of (fault_pieces name.now fault.now)) (E.told err.old) (E.told err.new)) }
    ensures failed { OnErr result (Rose (E.faults err.old) (E.faults err.new)) }
    ensures never_falls { E.faults err.old ≤ E.faults err.new }
{
    write_at(name, fault.line, fault.kind.text(), err)
}

// What is wrong at this line of the file with this name.
fn write_at<E: Sink>(name: &str, line: u32, text: &str, err: &mut E) -> Result<(), WriteFault>
    ensures written { OnOk result (E.told err.new ≡ option_map (appended (line_of (line_pieces name.now line text.now))) (E.told err.old)) }
    ensures prefix { OnErr result (IsPrefixSent (line_of (line_pieces name.now line text.now)) (E.told err.old) (E.told err.new)) }
    ensures failed { OnErr result (Rose (E.faults err.old) (E.faults err.new)) }
    ensures never_falls { E.faults err.old ≤ E.faults err.new }
{
    let mut buffer = Buffer::new();
    write_pieces(
        &[
            b"kira: ",
            name.as_bytes(),
            b":",
            buffer.format(line).as_bytes(),
            b": ",
            text.as_bytes(),
            b"\n",
        ],
        err,
    )
}

// What has no value, or not just one.
fn write_singular<E: Sink>(
    cause: &Singular,
    job: &str,
    name: &str,
    err: &mut E,
) -> Result<(), WriteFault>
    ensures written { OnOk result (E.told err.new ≡ option_map (appended (line_of (singular_pieces job.now name.now cause.now))) (E.told err.old)) }
    ensures prefix { OnErr result (IsPrefixSent (line_of (singular_pieces job.now name.now cause.now)) (E.told err.old) (E.told err.new)) }
    ensures failed { OnErr result (Rose (E.faults err.old) (E.faults err.new)) }
    ensures never_falls { E.faults err.old ≤ E.faults err.new }
{
    match cause {
        Singular::ZeroDivisor { file, line, at } => {
            write_zero(file_name(job, name, *file), *line, *at, err)
        }
        Singular::RulesOpen { .. } => {
            write_text("the scalar product rules leave a product open", err)
        }
        Singular::NotBasis { .. } => write_dependent(name, err),
    }
}

// A division by zero at this place of the file with this name.
fn write_zero<E: Sink>(name: &str, line: u32, at: u32, err: &mut E) -> Result<(), WriteFault>
    ensures written { OnOk result (E.told err.new ≡ option_map (appended (line_of (zero_pieces name.now line at))) (E.told err.old)) }
    ensures prefix { OnErr result (IsPrefixSent (line_of (zero_pieces name.now line at)) (E.told err.old) (E.told err.new)) }
    ensures failed { OnErr result (Rose (E.faults err.old) (E.faults err.new)) }
    ensures never_falls { E.faults err.old ≤ E.faults err.new }
{
    let mut line_buffer = Buffer::new();
    let mut at_buffer = Buffer::new();
    write_pieces(
        &[
            b"kira: ",
            name.as_bytes(),
            b":",
            line_buffer.format(line).as_bytes(),
            b": division by zero at byte ",
            at_buffer.format(at).as_bytes(),
            b"\n",
        ],
        err,
    )
}

// Dependent denominators of the family with this name.
fn write_dependent<E: Sink>(name: &str, err: &mut E) -> Result<(), WriteFault>
    ensures written { OnOk result (E.told err.new ≡ option_map (appended (line_of (dependent_pieces name.now))) (E.told err.old)) }
    ensures prefix { OnErr result (IsPrefixSent (line_of (dependent_pieces name.now)) (E.told err.old) (E.told err.new)) }
    ensures failed { OnErr result (Rose (E.faults err.old) (E.faults err.new)) }
    ensures never_falls { E.faults err.old ≤ E.faults err.new }
{
    write_pieces(
        &[
            b"kira: ",
            b"the denominators of family ",
            name.as_bytes(),
            b" are dependent",
            b"\n",
        ],
        err,
    )
}

// A divisor of the modulus.
fn write_divisor<E: Sink>(divisor: u64, err: &mut E) -> Result<(), WriteFault>
    ensures written { OnOk result (E.told err.new ≡ option_map (appended (line_of (divisor_pieces divisor))) (E.told err.old)) }
    ensures prefix { OnErr result (IsPrefixSent (line_of (divisor_pieces divisor)) (E.told err.old) (E.told err.new)) }
    ensures failed { OnErr result (Rose (E.faults err.old) (E.faults err.new)) }
    ensures never_falls { E.faults err.old ≤ E.faults err.new }
{
    let mut buffer = Buffer::new();
    write_pieces(
        &[
            b"kira: ",
            b"the prime is divisible by ",
            buffer.format(divisor).as_bytes(),
            b"\n",
        ],
        err,
    )
}

// Writes pieces one behind the other.
fn write_pieces<E: Sink>(pieces: &[&[u8]], err: &mut E) -> Result<(), WriteFault>
    ensures written { OnOk result (E.told err.new ≡ option_map (appended (concat (map (λ piece. piece.now) pieces.now))) (E.told err.old)) }
    ensures prefix { OnErr result (IsPrefixSent (concat (map (λ piece. piece.now) pieces.now)) (E.told err.old) (E.told err.new)) }
    ensures failed { OnErr result (Rose (E.faults err.old) (E.faults err.new)) }
    ensures never_falls { E.faults err.old ≤ E.faults err.new }
{
    for piece in pieces {
        write_all(piece, err)?;
    }
    Ok(())
}
