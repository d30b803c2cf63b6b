//! Tables of tests: rows `TEXT => EXPECTED`, in one line or two, and remarks.
use std::alloc::Global;
use std::test::Fail;

/// The lines of a table, each row in one of them. It fails if there is no row.
pub fn lines_of(alloc: Global, table: &str) -> Result<String, Fail> {
    if !table.contains("=> ") {
        return Err(Fail::from("a table without rows"));
    }
    Ok(table.replace(alloc, "\n    => ", " => ")?)
}

/// The text in a line of a table and what is expected of it. None for an empty line and for a remark.
pub fn row_in(line: &str) -> Option<(&str, &str)> {
    if line.is_empty() || line.starts_with("// ") {
        return None;
    }
    Some(line.split_once(" => ").unwrap_or((line, "")))
}
