//! Small texts with the trees and the faults that the profile gives them, worked out by hand.

use std::alloc::{AllocError, Global};
use std::test::Fail;
use yaml_text::{Pair, Text, Tree, Value, YamlError, YamlFault, YamlKind, read};

/// Lists stand in `[..]` and maps in `{..}`, each behind its line; a scalar's text stands in quotes.
const TREES: [(&str, &str); 20] = [
    ("", "1-"),
    ("# nothing\n   \n", "1-"),
    ("\n  a b # c", "2'a b'"),
    (
        "a:\n  b: 1\n  c:\nd: x#y\r\n",
        "1{1'a'2{2'b'2'1'3'c'3-}4'd'4'x#y'}",
    ),
    (
        "- a\n-\n-  - b\n   - \"\"\n- c: 1\n  d:\n  - e",
        "1[1'a'2-3[3'b'4'']5{5'c'5'1'6'd'7[7'e']}]",
    ),
    ("a:\n- b\n-\n  c\nd:", "1{1'a'2[2'b'4'c']5'd'5-}"),
    // a dash behind a pair that has its value begins a key
    ("a: 1\n- x: 2", "1{1'a'1'1'2'- x'2'2'}"),
    (
        "[ a , \"b, # ]\" ,{c : d, \"e f\": []}, {} ]",
        "1[1'a'1'b, # ]'1{1'c'1'd'1'e f'1[]}1{}]",
    ),
    ("a: b:c", "1{1'a'1'b:c'}"),
    ("\"a: b\" : c", "1{1'a: b'1'c'}"),
    ("a:b: c", "1{1'a:b'1'c'}"),
    ("\"<<\": \"&a\"", "1{1'<<'1'&a'}"),
    ("a: \"# b\" # c", "1{1'a'1'# b'}"),
    ("a#b:\n\n# c\n  d", "1{1'a#b'4'd'}"),
    ("a\r\n", "1'a'"),
    ("-a", "1'-a'"),
    ("a ?b", "1'a ?b'"),
    (" ---", "1'---'"),
    (
        "[[[[[[[[[[[[[[[[]]]]]]]]]]]]]]]]",
        "1[1[1[1[1[1[1[1[1[1[1[1[1[1[1[1[]]]]]]]]]]]]]]]]",
    ),
    (
        "- - - - - - - - - - - - - - - - a",
        "1[1[1[1[1[1[1[1[1[1[1[1[1[1[1[1[1'a']]]]]]]]]]]]]]]]",
    ),
];

fn show(tree: &Tree, out: &mut String) -> Result<(), AllocError> {
    out.push_str(digit(tree.line))?;
    match &tree.value {
        Value::Empty => out.push_str("-"),
        Value::Scalar(text) => quote(text, out),
        Value::List(items) => {
            out.push_str("[")?;
            for item in items.as_slice() {
                show(item, out)?;
            }
            out.push_str("]")
        }
        Value::Map(pairs) => {
            out.push_str("{")?;
            for pair in pairs.as_slice() {
                let Pair { key, line, value } = pair;
                out.push_str(digit(*line))?;
                quote(key, out)?;
                show(value, out)?;
            }
            out.push_str("}")
        }
    }
}

fn quote(text: &Text, out: &mut String) -> Result<(), AllocError> {
    out.push_str("'")?;
    out.push_str(text.as_str())?;
    out.push_str("'")
}

fn digit(line: u32) -> &'static str {
    match line {
        1 => "1",
        2 => "2",
        3 => "3",
        4 => "4",
        5 => "5",
        6 => "6",
        7 => "7",
        _ => "?",
    }
}

fn fault(alloc: Global, text: &str) -> Option<YamlFault> {
    if text.len() > 1000 {
        return None;
    }
    match read(alloc, text.as_bytes()) {
        Err(YamlError::Fault(fault)) => Some(fault),
        _ => None,
    }
}

// The first line at fault goes before a later one; the second of two equal keys is at fault.
#[test]
fn names_the_first_fault(rt: HostRuntime) {
    let of_a_line = YamlFault {
        line: 1,
        kind: YamlKind::Document,
    };
    assert_eq!(rt; fault(rt.alloc(), "---\n\t"), Some(of_a_line));
    let of_the_structure = YamlFault {
        line: 3,
        kind: YamlKind::DuplicateKey,
    };
    assert_eq!(rt;
        fault(rt.alloc(), "a: 1\nb: 2\na: 3"),
        Some(of_the_structure)
    );
}

#[test]
fn reads_trees(rt: HostRuntime) -> Result<(), Fail> {
    for (text, tree) in &TREES {
        let mut shown = String::new(rt.alloc());
        if text.len() < 1000 {
            match read(rt.alloc(), text.as_bytes()) {
                Ok(tree) => show(&tree, &mut shown)?,
                Err(_) => shown.push_str("refused")?,
            }
        }
        assert_eq!(rt; shown.as_str(), *tree);
    }
    Ok(())
}

#[test]
fn keeps_texts(rt: HostRuntime) -> Result<(), Fail> {
    assert_eq!(rt; Text::new(rt.alloc(), "k1")?.as_str(), "k1");
    assert_eq!(rt; Text::empty(rt.alloc()).as_str(), "");
    assert_eq!(rt; YamlKind::TooDeep.text(), "nested too deep");
    Ok(())
}
