ghost use Rattle.std.specs.Prelude.{◌≡◌, IfOk};
ghost use Rattle.printing.specs.Output.{file_output, output};
ghost use Rattle.records.specs.Lists.{list_count, list_empty};
ghost use Rattle.tables.specs.Meaning.{means};

use crate::fault_lines::tell_fault;
use crate::head::{file_count, file_rule};
use crate::reporting::all_reports;
use area::Area;
use costs::{Cost, PathCost};
use records::{Record, Records};
use std::alloc::{AllocError, Global};
pub use summary::LONGEST_INPUT;
use summary::{RuleName, check_length};
use tables::LinkTable;

// The reports of a file that is loaded into a table, which is an empty list of 992 records, or its fault.
fn print_loaded<C: Cost, T: LinkTable + Drop>(
    heap: Global,
    table: T,
    input: &[u8],
) -> Result<Vec<u8>, AllocError>
    requires { means T.LinkTable table ≡ list_empty 992 (means T.LinkTable table).count }
    ensures { IfOk result (λ bytes. bytes.items ≡ file_output C.Cost.costs C.Cost.title (means T.LinkTable table).count input.now) }
{
    let mut area = Area::<C, T>::open(table);
    match area.load(input) {
        Ok(()) => all_reports(heap, &mut area),
        Err(fault) => tell_fault(heap, fault),
    }
}

// The reports of a file, or its fault. The 992 records have room for all pairs of 32 routers.
fn print_file<C: Cost>(heap: Global, input: &[u8], count: usize) -> Result<Vec<u8>, AllocError>
    ensures { IfOk result (λ bytes. bytes.items ≡ file_output C.Cost.costs C.Cost.title (list_count 992 count) input.now) }
{
    let mut records = [Record::FREE; 992];
    let table = Records::make(&mut records, count);
    print_loaded::<C, Records>(heap, table, input)
}

// The bytes that the program prints of its input.
pub fn print_pages(heap: Global, input: &[u8]) -> Result<Vec<u8>, AllocError>
    ensures { IfOk result (λ bytes. bytes.items ≡ output input.now) }
{
    if let Err(fault) = check_length(input) {
        return tell_fault(heap, fault);
    }
    let count = file_count(input);
    match file_rule(input) {
        RuleName::Sum => print_file::<u32>(heap, input, count),
        RuleName::HopsWidth => print_file::<PathCost>(heap, input, count),
    }
}
