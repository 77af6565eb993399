//! The integrals that a list file names.

ghost use Rattle.std.specs.Prelude.{◌≡◌, ◌≤◌, ◌<◌, ◌^◌, true, length};
ghost use Rattle.input_schema.specs.declared.faults.File.TheVariants.{List as ListNumber};
ghost use Rattle.input_schema.specs.Readings.{Gives};
ghost use Rattle.list_schema.specs.Lists as spec;

use crate::indices::{indices, piece_count};
use crate::names::{inner, is_integral, name_in};
use input_schema::{File, InputKind, SchemaError, fault};
use integral_index::Integral;
use sqlite_items::Items;
use std::alloc::Global;
use text_tokens::Name;
use yaml_text::{bare, first_line, skip};

/// The integral of this family with the indices between brackets, of which there must be `width`.
fn counted(
    alloc: Global,
    file: File,
    line: u32,
    family: u32,
    width: u32,
    text: &[u8],
) -> Result<Integral, SchemaError>
    requires some { 1 ≤ width }
    requires at_most_twenty { width ≤ 20 }
    requires short { length text.now < 2 ^ 32 }
    ensures { Gives (spec.counted file line family width text.now) result }
{
    if piece_count(text) != width as usize {
        return Err(fault(file, line, InputKind::WrongCount));
    }
    let found = indices(alloc, file, line, text)?;
    Ok(Integral::new(alloc, family, found.as_slice())?)
}

/// The integral that a line names.
fn integral(
    alloc: Global,
    file: File,
    line: u32,
    family: u32,
    name: &Name,
    width: u32,
    text: &[u8],
) -> Result<Integral, SchemaError>
    requires some { 1 ≤ width }
    requires at_most_twenty { width ≤ 20 }
    requires short { length text.now < 2 ^ 32 }
    ensures { Gives (spec.integral file line family name.now width text.now) result }
{
    if !is_integral(text) {
        return Err(fault(file, line, InputKind::BadLine));
    }
    if name_in(text) != name.as_str().as_bytes() {
        return Err(fault(file, line, InputKind::UnknownName));
    }
    counted(alloc, file, line, family, width, inner(text))
}

/// The integrals that a list file names, in the order of its lines; one that is named twice comes twice.
/// `number` is the file's among the list files, from 0; `family` is the place of the family in the job,
/// from 0, and `width` says how many indices it has. The text has at most 2^24 bytes. The project's own.
///
/// Lines are cut and comments dropped as in the other files. A line is the family's name, `[`, one or more
/// numbers joined by `,`, and `]`, with spaces allowed between these parts; a number is digits, with a minus
/// sign or nothing directly before them.
///
/// # Errors
///
/// The first line at fault: BadLine, where it isn't of this form; then UnknownName, where the name isn't
/// the family's; then WrongCount, where there aren't `width` numbers; then OutOfRange, where a number is
/// not from -101 to 101. Or that memory was refused.
pub fn read_list(
    alloc: Global,
    number: u32,
    family: u32,
    name: &Name,
    width: u32,
    text: &[u8],
) -> Result<Items<Integral>, SchemaError>
    requires some { 1 ≤ width }
    requires at_most_twenty { width ≤ 20 }
    requires short { length text.now ≤ 2 ^ 24 }
    ensures { Gives (spec.list_file (ListNumber number) family name.now width text.now) result }
{
    let mut found = Items::new(alloc);
    let mut rest = text;
    let mut line = 0;
    while !rest.is_empty() {
        let (raw, behind) = first_line(rest);
        line += 1;
        let kept = bare(raw);
        if !kept.is_empty() {
            let file = File::List(number);
            found.push(integral(alloc, file, line, family, name, width, skip(kept))?)?;
        }
        rest = behind;
    }
    Ok(found)
}
