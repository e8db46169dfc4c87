//! Fixed programs, a row for each site: its function, its place, whether it is a fill, and whether
//! it is logged.

use crate::cases::{Case, case_program};
use crate::compare::{Verdict, compare, is_logged};
use ir::Site;
use std::alloc::{AllocError, Global};
use std::test::Fail;

type Row = (Case, u32, u32, bool, bool);

const ROWS: [Row; 28] = [
    (Case::WrittenFirst, 0, 0, false, false),
    (Case::WrittenFirst, 0, 2, false, false),
    (Case::ReadFirst, 0, 1, false, true),
    (Case::ReadFirst, 0, 2, false, false),
    (Case::Fill, 0, 0, false, true),
    (Case::Fill, 0, 0, true, false),
    (Case::Fill, 0, 1, false, true),
    (Case::Fill, 0, 2, false, true),
    (Case::Fill, 0, 2, true, true),
    (Case::FirstOfTwo, 0, 3, false, false),
    (Case::FirstOfTwo, 1, 0, false, false),
    (Case::LastOfTwo, 0, 3, false, true),
    (Case::LastOfTwo, 1, 0, false, false),
    (Case::OtherCall, 0, 1, false, false),
    (Case::Recursion, 1, 0, false, true),
    (Case::AfterRecursion, 0, 1, false, true),
    (Case::Else, 0, 1, false, false),
    (Case::Else, 0, 4, false, true),
    (Case::BackEdge, 0, 0, false, true),
    (Case::TwoBackEdges, 0, 0, false, true),
    (Case::Alias, 0, 3, false, true),
    (Case::Alias, 0, 4, false, true),
    (Case::WrittenAlias, 0, 1, false, false),
    (Case::WrittenAlias, 0, 4, false, false),
    (Case::RootArray, 0, 0, false, false),
    (Case::RootArray, 0, 2, false, true),
    // a place without a store, and one that isn't there
    (Case::RootArray, 0, 1, false, false),
    (Case::RootArray, 3, 0, false, false),
];

fn is_right(alloc: Global, row: Row) -> Result<bool, AllocError> {
    let (case, function, place, fill, logged) = row;
    let ir = case_program(alloc, case)?;
    let same = match compare(alloc, 0, &ir)? {
        Verdict::Same(_) => true,
        Verdict::Differs { .. } | Verdict::Unfit { .. } | Verdict::NoMemory => false,
    };
    let site = Site {
        function,
        place,
        fill,
    };
    Ok(same && is_logged(alloc, &ir, site)? == Some(logged))
}

/// The first row that the marks, or the walks, don't meet.
fn wrong_row(alloc: Global) -> Result<Option<Row>, AllocError> {
    for row in ROWS {
        if !is_right(alloc, row)? {
            return Ok(Some(row));
        }
    }
    Ok(None)
}

#[test]
fn each_row_is_met(rt: HostRuntime) -> Result<(), Fail> {
    assert_eq!(rt; wrong_row(rt.alloc()), Ok(None));
    Ok(())
}
