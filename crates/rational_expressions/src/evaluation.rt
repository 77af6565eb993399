//! The values of expressions.

ghost use Rattle.std.specs.Prelude.{◌≡◌, ◌≢◌, ◌<◌, ◌≤◌, ◌+◌, ◌^◌, ◌%◌, ◌∷◌, [], ◌++◌, ℕ, List, length, slice_index, All, IfOk, OnOk, IfErr, IfSome, IsSome, Some, None, Ok, Err, Result};
ghost use Rattle.std.specs.List.{AllByRecursion};
ghost use Rattle.rational_expressions.specs.Evaluation.{IsQuotient, Outcome, HasOutcome};
ghost use Rattle.rational_expressions.specs.Execution.{Runs};
ghost use Rattle.rational_expressions.specs.Trees.{height_after, tree_of, IsProgram};

use crate::expressions::Item;
use crate::faults::ValueFault;
use field_word::Modulus;
use std::marker::Model;

/// The quotient of two residues; `at` is the offset of its `/`.
fn divide(x: u64, y: u64, at: u32, modulus: &Modulus) -> Result<u64, ValueFault>
    requires left { x < modulus.now }
    requires right { y < modulus.now }
    ensures quotient { IsQuotient modulus.now at x y result }
    ensures below { IfOk result (λ v. v < modulus.now) }
{
    if y == 0 {
        return Err(ValueFault::ZeroDivisor { at });
    }
    match modulus.inverse(y) {
        Ok(inverse) => Ok(modulus.mul(x, inverse)),
        Err(composite) => Err(ValueFault::Composite(composite)),
    }
}

/// The power of a residue.
fn power(x: u64, exponent: u8, modulus: &Modulus) -> u64
    requires { x < modulus.now }
    ensures value { result ≡ x ^ exponent % modulus.now }
    ensures below { result < modulus.now }
{
    let mut result = modulus.reduce(1);
    for _ in 0..exponent {
        result = modulus.mul(result, x);
    }
    result
}

/// Up to 67 values that wait. Contracts see them from the last to the first.
#[derive(Drop)]
struct Stack {
    values: [u64; 67],
    height: usize,
}

impl Model for Stack {
    ghost use Rattle.std.specs.Prelude.{◌≤◌, ℕ, List, reverse, take};

    ghost Value = { List ℕ };

    ghost view = { λ s. reverse (take s.height s.values) };

    ghost invariant = { λ s. s.height ≤ 67 };
}

impl Stack {
    fn new() -> Stack
        ensures { result ≡ [] }
    {
        Stack {
            values: [0; 67],
            height: 0,
        }
    }

    fn push(&mut self, value: u64)
        requires { length self.old < 67 }
        ensures { self.new ≡ value ∷ self.old }
    {
        self.values[self.height] = value;
        self.height += 1;
    }

    fn pop(&mut self) -> u64
        requires { 0 < length self.old }
        ensures value { self.old ≡ result ∷ self.new }
        ensures room { length self.new < 67 }
    {
        self.height -= 1;
        self.values[self.height]
    }
}

/// The residue at a place, and 0 behind the last one.
fn residue_at(residues: &[u64], place: u32, modulus: &Modulus) -> u64
    requires { All (λ v. v < modulus.now) residues.now }
    ensures value { result ≡ slice_index residues.now place }
    ensures below { result < modulus.now }
{
    let place = place as usize;
    if place < residues.len() {
        residues[place]
    } else {
        modulus.reduce(0)
    }
}

/// Runs one item: it takes its operands from the stack and leaves its value there.
fn run_item(
    stack: &mut Stack,
    item: Item,
    residues: &[u64],
    modulus: &Modulus,
) -> Result<(), ValueFault>
    requires fits { IsSome (height_after (length stack.old) item) }
    requires stack { AllByRecursion (λ v. v < modulus.now) stack.old }
    requires residues { All (λ v. v < modulus.now) residues.now }
    ensures height { OnOk result (height_after (length stack.old) item ≡ Some (length stack.new)) }
    ensures below { OnOk result (AllByRecursion (λ v. v < modulus.now) stack.new) }
    ensures ok { OnOk result ((rest : List Item) (r : Outcome) → Runs modulus.now residues.now rest stack.new r → Runs modulus.now residues.now (item ∷ rest) stack.old r) }
    ensures fault { IfErr result (λ e. (rest : List Item) → Runs modulus.now residues.now (item ∷ rest) stack.old (Err e)) }
{
    match item {
        Item::Number(number) => {
            stack.push(modulus.reduce(number));
            Ok(())
        },
        Item::Place(place) => {
            stack.push(residue_at(residues, place, modulus));
            Ok(())
        },
        Item::Negate => {
            let value = stack.pop();
            stack.push(modulus.neg(value));
            Ok(())
        }
        Item::Power(exponent) => {
            let value = stack.pop();
            stack.push(power(value, exponent, modulus));
            Ok(())
        }
        Item::Add => {
            let right = stack.pop();
            let left = stack.pop();
            stack.push(modulus.add(left, right));
            Ok(())
        }
        Item::Subtract => {
            let right = stack.pop();
            let left = stack.pop();
            stack.push(modulus.sub(left, right));
            Ok(())
        }
        Item::Multiply => {
            let right = stack.pop();
            let left = stack.pop();
            stack.push(modulus.mul(left, right));
            Ok(())
        }
        Item::Divide(at) => {
            let right = stack.pop();
            let left = stack.pop();
            stack.push(divide(left, right, at, modulus)?);
            Ok(())
        }
    }
}

/// The outcome of all items, of which no more than 67 values wait at once.
pub fn evaluate(items: &[Item], residues: &[u64], modulus: &Modulus) -> Result<u64, ValueFault>
    requires program { IsProgram items.now }
    requires residues { All (λ v. v < modulus.now) residues.now }
    ensures outcome { HasOutcome modulus.now residues.now (tree_of items.now) result }
    ensures below { IfOk result (λ v. v < modulus.now) }
{
    let mut stack = Stack::new();
    for item in items {
        run_item(&mut stack, *item, residues, modulus)?;
    }
    Ok(stack.pop())
}
