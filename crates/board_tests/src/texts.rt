//! A table of two families, whose text was written by hand, and the sending of bytes.

ghost use Rattle.std.specs.Prelude.{◌≡◌, IfOk};
ghost use Rattle.integral_index.specs.declared.Order.TheVariants.{Standard};
ghost use Rattle.sparse_row.specs.Row.{IsRow};

use crate::shared::{Wrong, integral};
use field_word::Modulus;
use integral_index::{Integral, Order, ZeroSectors, is_index_list};
use kira_outside::MemorySink;
use out_of_memory::OutOfMemory;
use reduction_core::reduce_plain;
use sparse_row::Row;
use std::alloc::Global;
use std::test::Fail;
use table_text::{masters, send, text, write_all};
use text_tokens::Name;

// b_2[1,-1] - a[2] - 85*a[1], modulo 101.
fn equation(alloc: Global, modulus: &Modulus) -> Result<Row, Wrong>
    ensures { IfOk result (λ row. IsRow modulus.now Standard row) }
{
    let _p = modulus.value();
    let mut row = Row::new(alloc, Order::Standard);
    row.add_term(&integral(alloc, 0, &[1])?, modulus.reduce(16), modulus)?;
    row.add_term(&integral(alloc, 1, &[1, -1])?, modulus.reduce(1), modulus)?;
    row.add_term(&integral(alloc, 0, &[2])?, modulus.reduce(100), modulus)?;
    Ok(row)
}

const FIRST_BYTES: &[u8] = b"b_2[-1,0] = 0\na[";

const TEXT: &str = "\
b_2[-1,0] = 0
a[1] = 1*a[1]
b_2[1,-1] = 1*a[2] + 85*a[1]
b_2[0,1] = 0
masters 2
a[1]
a[2]
";

#[test]
fn the_text_and_the_masters_of_two_families(rt: HostRuntime) -> Result<(), Fail> {
    let alloc = rt.alloc();
    let modulus = Modulus::new(101)?;
    let mut equations = Vec::new(alloc);
    equations.push(equation(alloc, &modulus)?)?;
    let table = reduce_plain(alloc, equations, modulus, Order::Standard)?;

    let names = [
        Name::new(alloc, "a")?.ok_or("a name")?,
        Name::new(alloc, "b_2")?.ok_or("a name")?,
    ];
    let zeros = [
        ZeroSectors::new(alloc, &[])?,
        ZeroSectors::new(alloc, &[2])?,
    ];
    let selection = [
        integral(alloc, 1, &[-1, 0])?,
        integral(alloc, 0, &[1])?,
        integral(alloc, 1, &[1, -1])?,
        integral(alloc, 1, &[0, 1])?,
    ];

    let bytes = text(alloc, &table, &names, &zeros, &selection)?;
    assert_eq!(rt; bytes.as_slice(), TEXT.as_bytes());
    let found = masters(alloc, &table, &zeros, &selection)?;
    assert_eq!(rt; found.len(), 2);
    assert_eq!(rt; found[0], integral(alloc, 0, &[1])?);
    assert_eq!(rt; found[1], integral(alloc, 0, &[2])?);
    Ok(())
}

#[test]
fn bytes_are_sent_in_pieces_and_a_fault_leaves_a_prefix(rt: HostRuntime) -> Result<(), Fail> {
    let alloc = rt.alloc();
    let mut sink = MemorySink::new(alloc, Vec::new(alloc), 4, 64)?;
    assert!(rt; send(FIRST_BYTES, &mut sink).is_ok());
    assert_eq!(rt; sink.bytes(), FIRST_BYTES);
    let mut failing = MemorySink::new(alloc, vec![in alloc; 3]?, 4, 64)?;
    assert!(rt; write_all(FIRST_BYTES, &mut failing).is_err());
    assert_eq!(rt; failing.bytes(), b"b_2[-1,0".as_slice());
    Ok(())
}
