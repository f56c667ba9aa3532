ghost use Rattle.std.specs.Prelude.{◌≡◌};
ghost use Rattle.linkfile.specs.Reading.{stands, onward};
ghost use Rattle.directions.specs.Files.{list_all};
ghost use Rattle.summary.specs.Summaries.{next_rule, how_many, summary, GrantedExactly};

use crate::names::RuleName;
use crate::outcome::Summary;
use directions::{next_direction, read_routers, read_rule};
use faults::Fault;
use linkfile::{Reader, bad_line};

// The rule that the next line names.
fn read_rule_name(reader: &mut Reader) -> Result<RuleName, Fault>
    ensures answer { result ≡ next_rule (stands reader.old) }
    ensures reader { stands reader.new ≡ onward (stands reader.old) }
{
    let line = reader.next_number();
    let name = read_rule(reader)?;
    RuleName::named(name).ok_or(bad_line(line))
}

// How many directions are left up to the end of the file.
fn count_directions(reader: &mut Reader) -> Result<usize, Fault>
    ensures { result ≡ how_many (list_all (stands reader.old)) }
{
    let mut many = 0;
    while let Some(_) = next_direction(reader)? {
        many += 1;
    }
    Ok(many)
}

// Walks the link file to its end.
#[tactic(auto, using(crate::proofs::GrantLaws::exactly))]
pub fn summarize(text: &[u8]) -> Result<Summary, Fault>
    ensures answer { result ≡ summary text.now }
    ensures exact { GrantedExactly text.now result }
{
    let mut reader = Reader::new(text);
    let routers = read_routers(&mut reader)?;
    let rule = read_rule_name(&mut reader)?;
    let directions = count_directions(&mut reader)?;
    Ok(Summary {
        routers,
        rule,
        directions,
    })
}
