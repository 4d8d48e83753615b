//! The calls that read terms of AML.
use crate::promise::{Ended, answered};
use aml_marks::marked_count;
use aml_path::Path;
use aml_scan::{row_of, scan};
use aml_terms::{
    Arities, Mark, Marks, OperandView, TermReader, first_term, lent_bytes, list_at, parse_list,
    parse_table, read_name, scan_list, scan_table,
};
use ar_space::Result;
use std::alloc::Global;

/// Method (EFGH, 1) {Return (Arg0)}, and a call of it.
const TABLE: &[u8] = b"\x14\x08EFGH\x01\xA4\x68EFGH\x01";
/// Return ("A"), and a call of EFGH.
const BODY: &[u8] = b"\xA4\x0DA\x00EFGH\x01";
/// Where the call stands in the body.
const CALL: usize = 4;
/// The number of Return.
const RETURN: u16 = 0xA4;

/// What a call comes to that reads a table: where it is refused, no name takes arguments.
fn of_table<T: Drop>(call: &'static str, came: Result<T>, known: &Arities) -> Result<T, Ended> {
    if came.is_ok() == known.is_empty() {
        return Err(Ended::Broken(call));
    }
    answered(call, came)
}

/// The calls that make terms in memory.
fn call_parser(alloc: Global) -> Result<(), Ended> {
    let root = Path::root(alloc);
    let mut known = Arities::new(alloc);
    let result = parse_table(alloc, TABLE, &mut known);
    let table = of_table("parse_table", result, &known)?;
    let body = answered("parse_list", parse_list(alloc, BODY, &root, true, &known))?;
    if table.len() != 2 || body.len() != 2 {
        return Err(Ended::Broken("parse_table or parse_list"));
    }
    answered("read_name", read_name(alloc, CALL, &BODY[CALL..]))?;
    Ok(())
}

/// The call that notes where calls stand.
fn call_noting(alloc: Global) -> Result<(), Ended> {
    let root = Path::root(alloc);
    let noted = answered(
        "scan",
        scan(alloc, TABLE, &root, false, &Arities::new(alloc)),
    )?;
    if noted.marks.len() != 1 || noted.added.is_empty() {
        return Err(Ended::Broken("scan"));
    }
    Ok(())
}

/// The bytes of the text that the body returns.
fn text_of(marks: &Marks) -> Option<&[u8]> {
    let first = list_at(BODY, marks).next()?.first;
    match first.operand(0) {
        OperandView::Term(text) => lent_bytes(text, 0),
        _ => None,
    }
}

/// The calls that read terms where they stand.
fn call_scans(alloc: Global) -> Result<(), Ended> {
    let root = Path::root(alloc);
    let mut known = Arities::new(alloc);
    let result = scan_table(alloc, TABLE, &mut known);
    of_table("scan_table", result, &known)?;
    let result = scan_list(alloc, BODY, &root, true, &known);
    let marks = answered("scan_list", result)?;
    if marks.count_at(CALL) != 1 || text_of(&marks) != Some(b"A".as_slice()) {
        return Err(Ended::Broken("count_at, list_at or lent_bytes"));
    }
    let (_, behind) = first_term(BODY, 0, &marks);
    if behind != CALL {
        return Err(Ended::Broken("first_term"));
    }
    Ok(())
}

/// Every call that reads terms, once.
pub(crate) fn call_terms(alloc: Global) -> Result<(), Ended> {
    let mark = Mark {
        offset: CALL,
        count: 1,
    };
    if row_of(RETURN).is_none() || marked_count(&[mark], CALL) != 1 {
        return Err(Ended::Broken("row_of or marked_count"));
    }
    call_parser(alloc)?;
    call_noting(alloc)?;
    call_scans(alloc)
}
