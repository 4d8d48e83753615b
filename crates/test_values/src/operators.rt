//! Questions of operators on integers.

use crate::answers::say_integer;
use crate::operands::integer_width;
use aml_convert::{
    BinaryOperator, LogicalOperator, UnaryOperator, divide, is_true, lnot, operate,
    operate_logically, operate_on_one, truth,
};
use test_rows::Exchange;

/// The operators that take two integers and give one, by their names in ASL.
const BINARY: [(&str, BinaryOperator); 11] = [
    ("Add", BinaryOperator::Add),
    ("Subtract", BinaryOperator::Subtract),
    ("Multiply", BinaryOperator::Multiply),
    ("Mod", BinaryOperator::Mod),
    ("And", BinaryOperator::And),
    ("NAnd", BinaryOperator::Nand),
    ("Or", BinaryOperator::Or),
    ("NOr", BinaryOperator::Nor),
    ("XOr", BinaryOperator::Xor),
    ("ShiftLeft", BinaryOperator::ShiftLeft),
    ("ShiftRight", BinaryOperator::ShiftRight),
];

/// The operators that take one integer, by their names in ASL.
const UNARY: [(&str, UnaryOperator); 3] = [
    ("Not", UnaryOperator::Not),
    ("FindSetLeftBit", UnaryOperator::FindSetLeftBit),
    ("FindSetRightBit", UnaryOperator::FindSetRightBit),
];

/// The operators on two truth values, by their names in ASL.
const LOGICAL: [(&str, LogicalOperator); 2] = [
    ("LAnd", LogicalOperator::And),
    ("LOr", LogicalOperator::Or),
];

/// An integer in hexadecimal digits.
fn integer(asked: &mut Exchange) -> u64 {
    asked.hexadecimal(u64::MAX)
}

/// `Add WIDTH X Y`, and so each other operator on two integers.
fn operated(asked: &mut Exchange, name: &str) {
    let operator = asked.one_of(&BINARY, name, BinaryOperator::Add);
    let width = integer_width(asked);
    let x = integer(asked);
    let y = integer(asked);
    say_integer(asked, operate(operator, width, x, y));
}

/// `Divide X Y`: the quotient and the remainder.
fn divided(asked: &mut Exchange) {
    let x = integer(asked);
    let y = integer(asked);
    match divide(x, y) {
        Ok(division) => {
            asked.say("quotient");
            asked.say_hexadecimal(division.quotient);
            asked.say("remainder");
            asked.say_hexadecimal(division.remainder);
        }
        Err(refusal) => asked.refuse(refusal.number()),
    }
}

/// `Not WIDTH X`, `FindSetLeftBit WIDTH X`, `FindSetRightBit WIDTH X`.
fn operated_on_one(asked: &mut Exchange, name: &str) {
    let operator = asked.one_of(&UNARY, name, UnaryOperator::Not);
    let width = integer_width(asked);
    let x = integer(asked);
    asked.say_hexadecimal(operate_on_one(operator, width, x));
}

/// `LAnd WIDTH X Y`, `LOr WIDTH X Y`.
fn operated_logically(asked: &mut Exchange, name: &str) {
    let operator = asked.one_of(&LOGICAL, name, LogicalOperator::And);
    let width = integer_width(asked);
    let x = integer(asked);
    let y = integer(asked);
    asked.say_hexadecimal(operate_logically(operator, width, x, y));
}

/// `LNot WIDTH X`.
fn logically_not(asked: &mut Exchange) {
    let width = integer_width(asked);
    let x = integer(asked);
    asked.say_hexadecimal(lnot(width, x));
}

/// `true WIDTH`, `false WIDTH`: a truth value as an integer.
fn truth_value(asked: &mut Exchange, holds: bool) {
    let width = integer_width(asked);
    asked.say_hexadecimal(truth(width, holds));
}

/// `is-true X`: whether an integer stands for true.
fn stands_for_true(asked: &mut Exchange) {
    let x = integer(asked);
    asked.say_whether(is_true(x));
}

/// Questions of operators.
pub fn answer(asked: &mut Exchange, word: &str) {
    match word {
        "Divide" => divided(asked),
        "Not" | "FindSetLeftBit" | "FindSetRightBit" => operated_on_one(asked, word),
        "LAnd" | "LOr" => operated_logically(asked, word),
        "LNot" => logically_not(asked),
        "true" => truth_value(asked, true),
        "false" => truth_value(asked, false),
        "is-true" => stands_for_true(asked),
        _ => operated(asked, word),
    }
}
