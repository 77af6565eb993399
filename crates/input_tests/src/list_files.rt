//! Small list files with what they name and some of their faults, worked out by hand.

use crate::shared::{fault_in, is_fault};
use input_schema::{File, InputKind, SchemaError};
use integral_index::Integral;
use list_schema::read_list;
use sqlite_items::Items;
use std::alloc::Global;
use std::test::Fail;
use text_tokens::Name;

// The eighth family, which has three indices, in the third list file.
fn read(alloc: Global, text: &str) -> Result<Result<Items<Integral>, SchemaError>, Fail> {
    if text.len() > 1000000 {
        return Err(Fail::from("too long"));
    }
    let name = Name::new(alloc, "tri")?.ok_or("not a name")?;
    Ok(read_list(alloc, 2, 7, &name, 3, text.as_bytes()))
}

#[test]
fn names_the_first_line_at_fault(rt: HostRuntime) -> Result<(), Fail> {
    let fault = fault_in(read(rt.alloc(), "tri[1,1]\ntri[1")?);
    assert!(rt; is_fault(fault, File::List(2), 1, InputKind::WrongCount));
    Ok(())
}

// Comments, spaces wherever they are allowed, lines without bytes, CR LF, and a last line without LF. What
// comes twice stays.
const LINES: &'static str =
    "# tri[9,9,9]\ntri[1,-2,0]\n\n  tri [ 1 , 1,1 ]   # the corner\r\n   \ntri[-101,101,-0]\r\ntri[1,-2,0] #\ntri[007,-0101,000]";

#[test]
fn reads_the_integrals_of_all_lines(rt: HostRuntime) -> Result<(), Fail> {
    let found = read(rt.alloc(), LINES)??;
    let integrals = found.as_slice();
    assert_eq!(rt; integrals.len(), 5);
    assert_eq!(rt; integrals[0].indices(), [1, -2, 0].as_slice());
    assert_eq!(rt; integrals[1].indices(), [1, 1, 1].as_slice());
    assert_eq!(rt; integrals[2].indices(), [-101, 101, 0].as_slice());
    assert_eq!(rt; integrals[3].indices(), [1, -2, 0].as_slice());
    assert_eq!(rt; integrals[4].indices(), [7, -101, 0].as_slice());
    assert_eq!(rt; integrals[0].family(), 7);
    assert_eq!(rt; integrals[4].family(), 7);
    Ok(())
}

#[test]
fn a_text_without_lines_names_nothing(rt: HostRuntime) -> Result<(), Fail> {
    assert_eq!(rt; read(rt.alloc(), "")??.len(), 0);
    assert_eq!(rt; read(rt.alloc(), "\n  \r\n# nothing\n")??.len(), 0);
    Ok(())
}

fn with_digits(alloc: Global, digit: &str, end: &str) -> Result<String, Fail> {
    let mut text = String::from_str(alloc, "tri[1,-")?;
    for _ in 0..100000u32 {
        text.push_str(digit)?;
    }
    text.push_str(end)?;
    Ok(text)
}

// A number may have any number of digits.
#[test]
fn reads_numbers_of_100000_digits(rt: HostRuntime) -> Result<(), Fail> {
    let small = with_digits(rt.alloc(), "0", "101,2]")?;
    let found = read(rt.alloc(), small.as_str())??;
    let integrals = found.as_slice();
    assert_eq!(rt; integrals.len(), 1);
    assert_eq!(rt; integrals[0].indices(), [1, -101, 2].as_slice());
    let great = with_digits(rt.alloc(), "9", ",2]")?;
    let fault = fault_in(read(rt.alloc(), great.as_str())?);
    assert!(rt; is_fault(fault, File::List(2), 1, InputKind::OutOfRange));
    Ok(())
}
