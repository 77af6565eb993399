//! Texts worked by hand: what they read as, and the place and kind of their first fault.

ghost use Rattle.std.specs.Prelude.{◌<◌, All, IsTrue};

use crate::shared::names_of;
use field_word::{Composite, Modulus};
use momentum_sums::{Momentum, read_momentum};
use rational_expressions::{Expression, ValueFault, read_value};
use std::alloc::Global;
use std::test::Fail;
use text_tokens::{Name, TextError, TextFault, TextKind};

const NAMES: &[&str] = &["k1", "K", "p_2", "abcdefghijklmnopqrstuvwxyz012345"];

const NO_NAMES: &[&str] = &[
    "",
    "1k",
    "_k",
    "k-1",
    "k 1",
    "k\u{e9}",
    "abcdefghijklmnopqrstuvwxyz0123456",
];

fn is_taken_name(alloc: Global, text: &str) -> Result<bool, Fail> {
    match Name::new(alloc, text)? {
        Some(name) => Ok(name.as_str() == text),
        None => Ok(false),
    }
}

fn all_are_names(alloc: Global) -> Result<bool, Fail> {
    for text in NAMES {
        if !is_taken_name(alloc, text)? {
            return Ok(false);
        }
    }
    Ok(true)
}

fn none_is_a_name(alloc: Global) -> Result<bool, Fail> {
    for text in NO_NAMES {
        if Name::new(alloc, *text)?.is_some() {
            return Ok(false);
        }
    }
    Ok(true)
}

#[test]
fn takes_1_to_32_letters_digits_and_underscores(rt: HostRuntime) -> Result<(), Fail> {
    assert!(rt; all_are_names(rt.alloc())?);
    assert!(rt; none_is_a_name(rt.alloc())?);
    Ok(())
}

#[test]
fn gives_a_momentum_its_coefficients(rt: HostRuntime) -> Result<(), Fail> {
    let momentum = Momentum::new(rt.alloc(), &[1000, 0, -1000])?;
    assert!(rt; momentum.coefficients() == [1000, 0, -1000].as_slice());
    Ok(())
}

// Momenta of k1, k2 and p1, and their coefficients.
const MOMENTA: &[(&str, &[i16])] = &[
    ("k1", &[1, 0, 0]),
    ("-k1+p1", &[-1, 0, 1]),
    ("  2 * k1 - 3*k2 + k1 ", &[3, -3, 0]),
    ("k1-k1", &[0, 0, 0]),
    ("+1000*p1", &[0, 0, 1000]),
    ("-0001000*p1", &[0, 0, -1000]),
    ("600*k1+600*k1-200*k1", &[1000, 0, 0]),
];

fn is_read_as(alloc: Global, text: &str, names: &[Name], wanted: &[i16]) -> bool {
    if text.len() >= 100 || names.len() >= 10 {
        return false;
    }
    match read_momentum(alloc, text, names) {
        Ok(momentum) => momentum.coefficients() == wanted,
        Err(_) => false,
    }
}

fn all_are_read(alloc: Global, names: &[Name]) -> bool {
    for (text, wanted) in MOMENTA {
        if !is_read_as(alloc, text, names, wanted) {
            return false;
        }
    }
    true
}

#[test]
fn reads_momenta(rt: HostRuntime) -> Result<(), Fail> {
    let names = names_of(rt.alloc(), &["k1", "k2", "p1"])?;
    assert!(rt; names.len() == 3 && all_are_read(rt.alloc(), &names));
    Ok(())
}

// Texts that are no momenta of k1, k2 and p1, with the place and the kind of the first fault.
const NO_MOMENTA: &[(&str, u32, TextKind)] = &[
    ("", 0, TextKind::BadMomentum),
    ("k1+", 3, TextKind::BadMomentum),
    ("+-k1", 1, TextKind::BadMomentum),
    ("2k1", 1, TextKind::BadMomentum),
    ("2*-k1", 2, TextKind::BadMomentum),
    ("k1 k3", 3, TextKind::BadMomentum),
    ("k1$", 2, TextKind::BadMomentum),
    ("k3 k1", 0, TextKind::UnknownName),
    ("1001*k1", 0, TextKind::OutOfRange),
    (
        "340282366920938463463374607431768211455*k1",
        0,
        TextKind::OutOfRange,
    ),
    (
        "340282366920938463463374607431768211456*k1",
        0,
        TextKind::NumberTooWide,
    ),
    ("600*k1+600*k1", 11, TextKind::OutOfRange),
    ("600*k1+600*k1-k1+p1", 14, TextKind::OutOfRange),
    ("600*k1+600*k1+)", 11, TextKind::OutOfRange),
    ("600*k1+600*k1+)-k1", 14, TextKind::BadMomentum),
];

fn is_fault(found: Option<TextError>, at: u32, kind: TextKind) -> bool {
    found == Some(TextError::Fault(TextFault { at, kind }))
}

fn momentum_fault(alloc: Global, text: &str, names: &[Name]) -> Option<TextError> {
    if text.len() >= 100 || names.len() >= 10 {
        return None;
    }
    read_momentum(alloc, text, names).err()
}

fn no_momentum_is_read(alloc: Global, names: &[Name]) -> bool {
    for (text, at, kind) in NO_MOMENTA {
        if !is_fault(momentum_fault(alloc, text, names), *at, *kind) {
            return false;
        }
    }
    true
}

#[test]
fn names_the_first_fault_of_a_momentum(rt: HostRuntime) -> Result<(), Fail> {
    let names = names_of(rt.alloc(), &["k1", "k2", "p1"])?;
    assert!(rt; names.len() == 3 && no_momentum_is_read(rt.alloc(), &names));
    Ok(())
}

// What a short text over few names is read as.
fn expression_of(alloc: Global, text: &str, names: &[Name]) -> Result<Expression, TextError> {
    if text.len() >= 10_000 || names.len() >= 10 {
        return Err(TextError::OutOfMemory);
    }
    read_value(alloc, text, names)
}

fn are_residues(residues: &[u64], modulus: &Modulus) -> bool
    ensures { IsTrue result → All (λ x. x < modulus.now) residues.now }
{
    let p = modulus.value();
    for place in 0..residues.len() {
        if residues[place] >= p {
            return false;
        }
    }
    true
}

// The value of an expression at residues below the modulus.
fn value_of(
    expression: &Expression,
    residues: &[u64],
    modulus: &Modulus,
) -> Option<Result<u64, ValueFault>> {
    if !are_residues(residues, modulus) {
        return None;
    }
    Some(expression.value(residues, modulus))
}

fn has_value(expression: &Expression, residues: &[u64], modulus: &Modulus, wanted: u64) -> bool {
    match value_of(expression, residues, modulus) {
        Some(Ok(value)) => value == wanted,
        _ => false,
    }
}

// Expressions of s, t and m2, and their values at 5, 11 and 3 modulo 101 and at 5, 4 and 3 modulo 7. The values are Python's, by
// its own parser and `pow(y, -1, p)`.
const EXPRESSIONS: &[(&str, u64, u64)] = &[
    ("1+2*3", 7, 0),
    ("(1+2)*3", 9, 2),
    ("-s+t", 6, 6),
    ("s-t-m2", 92, 5),
    ("s-(t-m2)", 98, 4),
    ("2^10", 14, 2),
    ("-2^2", 97, 3),
    ("2*3^2", 18, 4),
    ("s^0", 1, 1),
    ("0^0", 1, 1),
    ("1/2", 51, 4),
    ("12/4/3", 1, 1),
    ("12/(4*3)", 1, 1),
    ("1/2*2", 1, 1),
    ("((s))", 5, 5),
    (" ( s + t ) ^ 2 / m2", 18, 6),
    ("340282366920938463463374607431768211455", 79, 3),
    ("-s*t+(+m2)", 49, 4),
    ("2^64", 79, 2),
];

fn has_values(
    alloc: Global,
    text: &str,
    names: &[Name],
    residues: &[u64],
    modulus: &Modulus,
    wanted: u64,
) -> bool {
    match expression_of(alloc, text, names) {
        Ok(expression) => has_value(&expression, residues, modulus, wanted),
        Err(_) => false,
    }
}

fn all_have_values(
    alloc: Global,
    names: &[Name],
    modulo_101: &Modulus,
    modulo_7: &Modulus,
) -> bool {
    for (text, at_101, at_7) in EXPRESSIONS {
        if !has_values(alloc, text, names, &[5, 11, 3], modulo_101, *at_101)
            || !has_values(alloc, text, names, &[5, 4, 3], modulo_7, *at_7)
        {
            return false;
        }
    }
    true
}

#[test]
fn reads_and_values_expressions(rt: HostRuntime) -> Result<(), Fail> {
    let (modulo_101, modulo_7) = (Modulus::new(101)?, Modulus::new(7)?);
    let names = names_of(rt.alloc(), &["s", "t", "m2"])?;
    assert!(rt; names.len() == 3 && all_have_values(rt.alloc(), &names, &modulo_101, &modulo_7));
    Ok(())
}

// Expressions without a value modulo 15, and the first division that fails.
const NO_VALUES: &[(&str, ValueFault)] = &[
    ("1/0", ValueFault::ZeroDivisor { at: 1 }),
    ("1/(s-s)", ValueFault::ZeroDivisor { at: 1 }),
    ("1/(1/0)", ValueFault::ZeroDivisor { at: 4 }),
    ("(1/0)+(2/0)", ValueFault::ZeroDivisor { at: 2 }),
    ("1/0/5", ValueFault::ZeroDivisor { at: 1 }),
    ("1/5/0", ValueFault::Composite(Composite { divisor: 5 })),
    ("2/6", ValueFault::Composite(Composite { divisor: 3 })),
];

fn value_fault(alloc: Global, text: &str, names: &[Name], modulus: &Modulus) -> Option<ValueFault> {
    match expression_of(alloc, text, names) {
        Ok(expression) => match value_of(&expression, &[7], modulus) {
            Some(Err(fault)) => Some(fault),
            _ => None,
        },
        Err(_) => None,
    }
}

fn none_has_a_value(alloc: Global, names: &[Name], modulus: &Modulus) -> bool {
    for (text, fault) in NO_VALUES {
        if value_fault(alloc, text, names, modulus) != Some(*fault) {
            return false;
        }
    }
    true
}

#[test]
fn names_the_first_division_that_fails(rt: HostRuntime) -> Result<(), Fail> {
    let modulus = Modulus::new(15)?;
    let names = names_of(rt.alloc(), &["s"])?;
    assert!(rt; names.len() == 1 && none_has_a_value(rt.alloc(), &names, &modulus));
    Ok(())
}

// Texts that are no expressions of s, with the place and the kind of the first fault.
const NO_EXPRESSIONS: &[(&str, u32, TextKind)] = &[
    ("", 0, TextKind::BadExpression),
    ("1+", 2, TextKind::BadExpression),
    ("(1", 2, TextKind::BadExpression),
    ("1)", 1, TextKind::BadExpression),
    ("()", 1, TextKind::BadExpression),
    ("1 2", 2, TextKind::BadExpression),
    ("--1", 1, TextKind::BadExpression),
    ("2*-1", 2, TextKind::BadExpression),
    ("2^s", 2, TextKind::BadExpression),
    ("2^x", 2, TextKind::BadExpression),
    ("2^3^4", 3, TextKind::BadExpression),
    ("1 x", 2, TextKind::BadExpression),
    ("1.5", 1, TextKind::BadExpression),
    ("x 1", 0, TextKind::UnknownName),
    ("2^65", 2, TextKind::OutOfRange),
    (
        "2^340282366920938463463374607431768211456",
        2,
        TextKind::NumberTooWide,
    ),
    (
        "s+340282366920938463463374607431768211456",
        2,
        TextKind::NumberTooWide,
    ),
];

fn no_expression_is_read(alloc: Global, names: &[Name]) -> bool {
    for (text, at, kind) in NO_EXPRESSIONS {
        if !is_fault(expression_of(alloc, text, names).err(), *at, *kind) {
            return false;
        }
    }
    true
}

#[test]
fn names_the_first_fault_of_an_expression(rt: HostRuntime) -> Result<(), Fail> {
    let names = names_of(rt.alloc(), &["s"])?;
    assert!(rt; names.len() == 1 && no_expression_is_read(rt.alloc(), &names));
    Ok(())
}

// A text, some copies of another, and a third.
fn repeated(
    alloc: Global,
    first: &str,
    middle: &str,
    count: u32,
    last: &str,
) -> Result<String, Fail> {
    let mut text = String::from_str(alloc, first)?;
    for _ in 0..count {
        text.push_str(middle)?;
    }
    text.push_str(last)?;
    Ok(text)
}

fn is_too_deep(alloc: Global, text: &str, at: u32) -> bool {
    is_fault(expression_of(alloc, text, &[]).err(), at, TextKind::TooDeep)
}

#[test]
fn takes_32_open_parentheses(rt: HostRuntime) -> Result<(), Fail> {
    let deep = repeated(rt.alloc(), "", "(", 32, "1))))))))))))))))))))))))))))))))")?;
    assert!(rt; expression_of(rt.alloc(), deep.as_str(), &[]).is_ok());
    let deeper = repeated(rt.alloc(), "", "(", 33, "1")?;
    assert!(rt; is_too_deep(rt.alloc(), deeper.as_str(), 32));
    Ok(())
}

#[test]
fn takes_1000_signs(rt: HostRuntime) -> Result<(), Fail> {
    let long = repeated(rt.alloc(), "1", "+1", 1000, "")?;
    assert!(rt; expression_of(rt.alloc(), long.as_str(), &[]).is_ok());
    let longer = repeated(rt.alloc(), "1", "+1", 1000, "*1")?;
    assert!(rt; is_too_deep(rt.alloc(), longer.as_str(), 2001));
    Ok(())
}
