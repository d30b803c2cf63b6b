//! Receipts compared with the records of a workbench.
//! A mark for each record finds receipts that come twice; without memory for marks all pairs are compared. So a lack of memory hides no fault.
ghost use Rattle.std.specs.Prelude.{◌≡◌, ◌↔◌, false, length, replicate, IfOk, IsTrue};
ghost use Rattle.fb_locked.specs.Closing.{IsReceiptRight, ChecksReceipts, has_number};

use crate::close::CloseError;
use crate::seat::Receipt;
use fb_bench::Bench;
use std::alloc::{AllocError, Global};

/// Whether each receipt is the record of its number, and none comes twice.
pub(crate) fn check_receipts(
    alloc: Global,
    bench: &Bench,
    receipts: &[Receipt],
) -> Result<(), CloseError>
    ensures { ChecksReceipts bench.now receipts.now result }
{
    match marks_for(alloc, bench) {
        Ok(marks) => check_by_marks(bench, receipts, marks),
        Err(_) => check_by_pairs(bench, receipts),
    }
}

/// A mark for each record since the start.
fn marks_for(alloc: Global, bench: &Bench) -> Result<Vec<bool>, AllocError>
    ensures { IfOk result (λ marks. marks.items ≡ replicate (length bench.now.log.records) false) }
{
    vec![in alloc; false; bench.len()]
}

/// Checks with a mark for each record, none of which is set.
fn check_by_marks(bench: &Bench, receipts: &[Receipt], marks: Vec<bool>) -> Result<(), CloseError>
    requires { marks.items ≡ replicate (length bench.now.log.records) false }
    ensures { ChecksReceipts bench.now receipts.now result }
{
    let before = bench.before();
    let mut marks = marks;
    for receipt in receipts {
        let number = receipt.number();
        if !is_record(bench, receipt) {
            return Err(CloseError::ReceiptDiffers(number));
        }
        let at = (number - before - 1) as usize;
        if marks[at] {
            return Err(CloseError::ReceiptTwice(number));
        }
        marks[at] = true;
    }
    Ok(())
}

/// Checks with no memory: each receipt is compared with those before it.
fn check_by_pairs(bench: &Bench, receipts: &[Receipt]) -> Result<(), CloseError>
    ensures { ChecksReceipts bench.now receipts.now result }
{
    for place in 0..receipts.len() {
        let receipt = &receipts[place];
        let number = receipt.number();
        if !is_record(bench, receipt) {
            return Err(CloseError::ReceiptDiffers(number));
        }
        if is_among(&receipts[..place], number) {
            return Err(CloseError::ReceiptTwice(number));
        }
    }
    Ok(())
}

/// Whether one of the receipts has this number.
fn is_among(receipts: &[Receipt], number: u64) -> bool
    ensures { result ≡ has_number receipts.now number }
{
    receipts.iter().any(|receipt| receipt.number() == number)
}

/// Whether the receipt is the record of its number.
fn is_record(bench: &Bench, receipt: &Receipt) -> bool
    ensures { IsTrue result ↔ IsReceiptRight bench.now receipt.now }
{
    match bench.record(receipt.number) {
        None => false,
        Some(record) => record.is_same(&receipt.record),
    }
}
