// What a link file names in its first two lines, before an area is made for it.
ghost use Rattle.std.specs.Prelude.{◌≡◌};
ghost use Rattle.printing.specs.Output.{file_count, file_rule};

use directions::{read_routers, read_rule};
use linkfile::Reader;
use summary::RuleName;

// The count of routers, or 0 where that line is at fault.
pub(crate) fn file_count(input: &[u8]) -> usize
    ensures { result ≡ file_count input.now }
{
    read_routers(&mut Reader::new(input)).unwrap_or(0) as usize
}

// The rule that the second line names, whatever the first line says; `sum` where it names none.
pub(crate) fn file_rule(input: &[u8]) -> RuleName
    ensures { result ≡ file_rule input.now }
{
    let mut reader = Reader::new(input);
    let _ = read_routers(&mut reader);
    read_rule(&mut reader)
        .ok()
        .and_then(RuleName::named)
        .unwrap_or(RuleName::Sum)
}
