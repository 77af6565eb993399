//! Small texts with the values and the faults that the parts of a schema give them, worked out by hand.

ghost use Rattle.std.specs.Prelude.{◌≡◌, ◌+◌, ◌<◌, ◌^◌, length};

use crate::shared::{fault_in, is_fault, names_of, tree_of};
use input_schema::{
    File, InputFault, InputKind, Key, fields, flag, fresh, is_negative, is_number, items, joined,
    list, momentum, name, needed, new_name, number, optional, pair, place_among, reference,
    replaced, scalar, unsigned, value, wide_number, written_number,
};
use momentum_sums::Momentum;
use std::alloc::Global;
use std::test::Fail;
use text_tokens::Name;
use yaml_text::{Pair, Tree, YamlKind};

#[derive(Clone, Copy)]
enum Part {
    Scalar,
    TwoOrThree,
    Pair,
    Flag,
    Name,
    NewName,
    Reference,
    UpTo255,
    Wide,
    Momentum,
    Value,
    Map,
}

// The part that is read, its text, and the line and the kind of its fault. The declared names are k1 and p1. A map needs
// the key a and may have the key b.
const REFUSED: &[(Part, &str, u32, InputKind)] = &[
    (Part::Scalar, "", 1, InputKind::Shape),
    (Part::Scalar, "[a]", 1, InputKind::Shape),
    (Part::Scalar, "\n{}", 2, InputKind::Shape),
    (Part::TwoOrThree, "a", 1, InputKind::Shape),
    (Part::TwoOrThree, "a: 1", 1, InputKind::Shape),
    (Part::TwoOrThree, "\n- a", 2, InputKind::OutOfRange),
    (Part::TwoOrThree, "[a, b, c, d]", 1, InputKind::OutOfRange),
    (Part::Pair, "a", 1, InputKind::Shape),
    (Part::Pair, "[a]", 1, InputKind::Shape),
    (Part::Pair, "[a, b, c]", 1, InputKind::Shape),
    (Part::Flag, "[true]", 1, InputKind::Shape),
    (Part::Flag, "false", 1, InputKind::RunFlag),
    (Part::Flag, "True", 1, InputKind::RunFlag),
    (Part::Name, "[d]", 1, InputKind::Shape),
    (Part::Name, "1a", 1, InputKind::BadName),
    (Part::Name, "\"\"", 1, InputKind::BadName),
    (Part::Name, "d", 1, InputKind::ReservedName),
    (Part::Name, "\n\nprime", 3, InputKind::ReservedName),
    (Part::NewName, "k-1", 1, InputKind::BadName),
    (Part::NewName, "d", 1, InputKind::ReservedName),
    (Part::NewName, "p1", 1, InputKind::DuplicateName),
    (Part::Reference, "{}", 1, InputKind::Shape),
    (Part::Reference, "-k1", 1, InputKind::BadName),
    (Part::Reference, "k2", 1, InputKind::UnknownName),
    (Part::Reference, "d", 1, InputKind::UnknownName),
    (Part::UpTo255, "[1]", 1, InputKind::Shape),
    (Part::UpTo255, "", 1, InputKind::Shape),
    (Part::UpTo255, "\"\"", 1, InputKind::BadNumber),
    (Part::UpTo255, "-1", 1, InputKind::BadNumber),
    (Part::UpTo255, "1 0", 1, InputKind::BadNumber),
    (Part::UpTo255, "0", 1, InputKind::OutOfRange),
    (Part::UpTo255, "256", 1, InputKind::OutOfRange),
    (
        Part::UpTo255,
        "340282366920938463463374607431768211456",
        1,
        InputKind::NumberTooWide,
    ),
    (
        Part::Wide,
        "340282366920938463463374607431768211456",
        1,
        InputKind::NumberTooWide,
    ),
    (Part::Wide, "1x", 1, InputKind::BadNumber),
    (Part::Momentum, "[k1]", 1, InputKind::Shape),
    (Part::Momentum, "k1*2", 1, InputKind::BadMomentum),
    (Part::Momentum, "\nk1+k2", 2, InputKind::UnknownName),
    (Part::Momentum, "1001*k1", 1, InputKind::OutOfRange),
    (Part::Value, "k1+", 1, InputKind::BadExpression),
    (Part::Value, "k1^65", 1, InputKind::OutOfRange),
    (Part::Map, "- a", 1, InputKind::Shape),
    (Part::Map, "b: 1\nc: 2\ne: 3", 2, InputKind::UnknownKey),
    (Part::Map, "\nb: 1", 2, InputKind::MissingKey),
    (Part::Map, "{}", 1, InputKind::MissingKey),
];

fn fault_of(alloc: Global, part: Part, node: &Tree, names: &[Name]) -> Option<InputFault> {
    let file = File::Jobs;
    if names.len() > 10 {
        return None;
    }
    match part {
        Part::Scalar => fault_in(scalar(file, node)),
        Part::TwoOrThree => fault_in(items(file, node, 2, 3)),
        Part::Pair => fault_in(pair(file, node)),
        Part::Flag => fault_in(flag(file, node)),
        Part::Name => fault_in(name(alloc, file, node)),
        Part::NewName => fault_in(new_name(alloc, file, node, names)),
        Part::Reference => fault_in(reference(alloc, file, node, names)),
        Part::UpTo255 => fault_in(number(file, node, 1, 255)),
        Part::Wide => fault_in(wide_number(file, node)),
        Part::Momentum => fault_in(momentum(alloc, file, node, names)),
        Part::Value => fault_in(value(alloc, file, node, names)),
        Part::Map => {
            let keys = [Key::needed("a"), Key::optional("b")];
            fault_in(fields(file, &keys, node))
        }
    }
}

fn fault_of_text(alloc: Global, part: Part, text: &str, names: &[Name]) -> Option<InputFault> {
    match tree_of(alloc, text) {
        Some(tree) => fault_of(alloc, part, &tree, names),
        None => None,
    }
}

fn all_are_refused(alloc: Global, names: &[Name]) -> bool {
    for (part, text, line, kind) in REFUSED {
        if !is_fault(
            fault_of_text(alloc, *part, text, names),
            File::Jobs,
            *line,
            *kind,
        ) {
            return false;
        }
    }
    true
}

#[test]
fn names_the_first_fault_of_a_part(rt: HostRuntime) -> Result<(), Fail> {
    let names = names_of(rt.alloc(), &["k1", "p1"])?;
    assert!(rt; names.len() == 2 && all_are_refused(rt.alloc(), &names));
    Ok(())
}

fn is_scalar(node: &Tree, text: &str) -> bool {
    match scalar(File::Jobs, node) {
        Ok(found) => found.as_str() == text,
        Err(_) => false,
    }
}

fn has_items(node: &Tree, count: usize) -> bool {
    let bounded = match items(File::Jobs, node, 0, 2) {
        Ok(nodes) => nodes.len() == count,
        Err(_) => false,
    };
    bounded
        && match list(File::Jobs, node) {
            Ok(nodes) => nodes.len() == count,
            Err(_) => false,
        }
}

fn is_pair(node: &Tree, text: &str) -> bool {
    match pair(File::Jobs, node) {
        Ok((first, second)) => is_scalar(first, text) && flag(File::Jobs, second).is_ok(),
        Err(_) => false,
    }
}

#[test]
fn reads_scalars_and_lists(rt: HostRuntime) -> Result<(), Fail> {
    let tree = tree_of(rt.alloc(), "[a b, true]").ok_or("no tree")?;
    assert!(rt; has_items(&tree, 2) && is_pair(&tree, "a b"));
    Ok(())
}

fn is_small(node: &Tree, want: u32) -> bool {
    match number(File::Jobs, node, want, want) {
        Ok(found) => found == want,
        Err(_) => false,
    }
}

fn is_wide(node: &Tree, want: u128) -> bool {
    match wide_number(File::Jobs, node) {
        Ok(found) => found == want,
        Err(_) => false,
    }
}

fn is_written(text: &str, want: u128) -> bool {
    match written_number(File::Words, 2, text.as_bytes()) {
        Ok(found) => found == want,
        Err(_) => false,
    }
}

#[test]
fn reads_numbers(rt: HostRuntime) -> Result<(), Fail> {
    let small = tree_of(rt.alloc(), "007").ok_or("no tree")?;
    let wide = tree_of(rt.alloc(), "340282366920938463463374607431768211455").ok_or("no tree")?;
    assert!(rt; is_small(&small, 7) && is_wide(&wide, 340282366920938463463374607431768211455));
    Ok(())
}

#[test]
fn reads_written_numbers(rt: HostRuntime) {
    assert!(rt; is_written("042", 42));
    assert!(rt; is_number(b"042") && !is_number(b"") && !is_number(b"4-2"));
    assert!(rt; is_negative(b"-4") && !is_negative(b"") && !is_negative(b"4-"));
    assert!(rt; unsigned(b"-4") == b"4".as_slice() && unsigned(b"4-") == b"4-".as_slice());
}

fn has_place(alloc: Global, node: &Tree, names: &[Name], place: usize) -> bool {
    match reference(alloc, File::Jobs, node, names) {
        Ok(found) => found == place,
        Err(_) => false,
    }
}

fn is_new(alloc: Global, node: &Tree, names: &[Name], text: &str) -> bool {
    match new_name(alloc, File::Jobs, node, names) {
        Ok(found) => found.as_str() == text,
        Err(_) => false,
    }
}

// The name is fresh where none was declared, and not beside these names.
fn is_fresh_alone(alloc: Global, node: &Tree, names: &[Name]) -> bool {
    match name(alloc, File::Jobs, node) {
        Ok(name) => {
            let fault = fault_in(fresh(File::Jobs, 5, names, &name));
            fresh(File::Jobs, 5, &[], &name).is_ok()
                && is_fault(fault, File::Jobs, 5, InputKind::DuplicateName)
        }
        Err(_) => false,
    }
}

#[test]
fn reads_names(rt: HostRuntime) -> Result<(), Fail> {
    let names = names_of(rt.alloc(), &["k1", "p1"])?;
    let known = tree_of(rt.alloc(), "p1").ok_or("no tree")?;
    assert!(rt; names.len() == 2 && has_place(rt.alloc(), &known, &names, 1));
    assert!(rt; is_fresh_alone(rt.alloc(), &known, &names));
    Ok(())
}

#[test]
fn reads_a_new_name(rt: HostRuntime) -> Result<(), Fail> {
    let names = names_of(rt.alloc(), &["k1", "p1"])?;
    let other = tree_of(rt.alloc(), "prime_").ok_or("no tree")?;
    assert!(rt; names.len() == 2 && is_new(rt.alloc(), &other, &names, "prime_"));
    Ok(())
}

#[test]
fn joins_and_finds_names(rt: HostRuntime) -> Result<(), Fail> {
    let names = names_of(rt.alloc(), &["k1", "p1"])?;
    assert!(rt; place_among(&names, b"k1") == Some(0) && place_among(&names, b"k").is_none());
    let joined = joined(rt.alloc(), &names, &names)?;
    assert!(rt; joined.len() == 4 && joined[3].as_str() == "p1");
    Ok(())
}

fn has_needed(pairs: &[Pair], line: u32, key: &str, text: &str) -> bool {
    match needed(File::Jobs, line, pairs, key) {
        Ok(node) => is_scalar(node, text),
        Err(_) => false,
    }
}

fn has_optional(pairs: &[Pair], key: &str, text: &str) -> bool {
    match optional(pairs, key) {
        Some(node) => is_scalar(node, text),
        None => false,
    }
}

fn lacks(pairs: &[Pair], key: &str) -> bool {
    let fault = fault_in(needed(File::Jobs, 9, pairs, key));
    optional(pairs, key).is_none() && is_fault(fault, File::Jobs, 9, InputKind::MissingKey)
}

#[test]
fn reads_maps(rt: HostRuntime) -> Result<(), Fail> {
    let keys = [Key::needed("a"), Key::optional("b"), Key::optional("c")];
    let tree = tree_of(rt.alloc(), "c: x\na: y\n").ok_or("no tree")?;
    let pairs = fields(File::Jobs, &keys, &tree)?;
    assert!(rt; pairs.len() == 2 && has_needed(pairs, tree.line, "a", "y"));
    assert!(rt; has_optional(pairs, "c", "x") && lacks(pairs, "b"));
    Ok(())
}

fn is_sum(alloc: Global, node: &Tree, names: &[Name], coefficients: &[i16]) -> bool
    requires { length names.now < 2 ^ 32 }
{
    match momentum(alloc, File::Kinematics, node, names) {
        Ok(sum) => sum.coefficients() == coefficients,
        Err(_) => false,
    }
}

#[test]
fn reads_momenta_and_values(rt: HostRuntime) -> Result<(), Fail> {
    let names = names_of(rt.alloc(), &["k1", "p1"])?;
    let sum = tree_of(rt.alloc(), "-k1 + 2*p1").ok_or("no tree")?;
    let tree = tree_of(rt.alloc(), "k1^2/3").ok_or("no tree")?;
    assert!(rt; names.len() == 2 && is_sum(rt.alloc(), &sum, &names, &[-1, 2]));
    assert!(rt; value(rt.alloc(), File::Kinematics, &tree, &names).is_ok());
    Ok(())
}

fn is_replaced(alloc: Global, image: &Momentum, momentum: &Momentum, want: &[i16]) -> bool
    requires place { 1 < length momentum.now }
    requires image { length image.now + 1 ≡ length momentum.now }
{
    match replaced(alloc, File::Kinematics, 4, 1, image, momentum) {
        Ok(sum) => sum.coefficients() == want,
        Err(_) => false,
    }
}

// 3*p1 - 2*p2 + p3 with p2 = p1 - 400*p3 is p1 + 801*p3, and with p2 = p1 - 500*p3 it is p1 + 1001*p3.
#[test]
fn replaces_a_momentum(rt: HostRuntime) -> Result<(), Fail> {
    let momentum = Momentum::new(rt.alloc(), &[3, -2, 1])?;
    let image = Momentum::new(rt.alloc(), &[1, -400])?;
    assert!(rt; is_replaced(rt.alloc(), &image, &momentum, &[1, 801]));
    Ok(())
}

#[test]
fn refuses_a_large_replacement(rt: HostRuntime) -> Result<(), Fail> {
    let momentum = Momentum::new(rt.alloc(), &[3, -2, 1])?;
    let image = Momentum::new(rt.alloc(), &[1, -500])?;
    let fault = fault_in(replaced(rt.alloc(), File::Kinematics, 4, 1, &image, &momentum));
    assert!(rt; is_fault(fault, File::Kinematics, 4, InputKind::OutOfRange));
    Ok(())
}

// Each kind, and how it is told.
const KINDS: &[(InputKind, &str)] = &[
    (InputKind::Missing, "no such file"),
    (InputKind::TooLong, "longer than 16777216 bytes"),
    (InputKind::Yaml(YamlKind::Tab), "a tab outside comments"),
    (InputKind::Shape, "the value has the wrong shape"),
    (InputKind::UnknownKey, "unknown key"),
    (InputKind::MissingKey, "a key is missing"),
    (InputKind::BadName, "not a name"),
    (InputKind::ReservedName, "reserved name"),
    (InputKind::DuplicateName, "name used twice"),
    (InputKind::UnknownName, "unknown name"),
    (InputKind::BadNumber, "not a number"),
    (InputKind::NumberTooWide, "wider than 128 bits"),
    (InputKind::OutOfRange, "out of range"),
    (InputKind::BadExpression, "not an expression"),
    (InputKind::BadMomentum, "not a momentum"),
    (InputKind::TooDeep, "nested too deep"),
    (InputKind::WrongCount, "wrong count"),
    (
        InputKind::SectorOutside,
        "sector outside the top level sectors",
    ),
    (InputKind::RunFlag, "only true is allowed"),
    (InputKind::ManyJobs, "more than one job"),
    (InputKind::NoValue, "no value given"),
    (InputKind::BadOverride, "not NAME=VALUE"),
    (InputKind::BadLine, "not an integral"),
    (InputKind::BadModulus, "not an odd number from 3 below 2^63"),
    (
        InputKind::NotAPermutation,
        "not a symmetry of the denominators",
    ),
];

fn all_are_told() -> bool {
    for (kind, text) in KINDS {
        if kind.text() != *text {
            return false;
        }
    }
    true
}

#[test]
fn tells_each_kind(rt: HostRuntime) {
    assert!(rt; all_are_told());
}
