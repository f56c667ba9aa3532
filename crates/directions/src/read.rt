// What the lines mean, read one after another.
// kept: that the reader still has the lent text, and where it then stands, is said by each call: a reader is lent and moved on, and its
// type cannot say by how much.
ghost use Rattle.std.specs.Prelude.{◌≡◌, ◌+◌};
ghost use Rattle.decimals.specs.Numbers.{numeral};
ghost use Rattle.linkfile.specs.Lines.{routers, rule};
ghost use Rattle.linkfile.specs.Reading.{stands, lent, onward};
ghost use Rattle.directions.specs.Directions.{number_on, next_value, next_number, rest_read, ending, direction_read, texts, TextPart};

use crate::direction::Direction;
use decimals::read_number;
use faults::Fault;
use linkfile::{Key, Line, Reader, bad_line, same};

// A number, or the fault 7 on its line.
fn number_on(value: &[u8], line: usize) -> Result<u32, Fault>
    ensures { result ≡ number_on line (numeral value.now) }
{
    read_number(value).ok_or(bad_line(line))
}

// The number on the next line, which must have this key.
fn read_number_under(reader: &mut Reader, key: Key) -> Result<u32, Fault>
    ensures answer { result ≡ next_number key (stands reader.old) }
    ensures text { lent reader.new ≡ lent reader.old }
    ensures reader { stands reader.new ≡ onward (stands reader.old) }
{
    let line = reader.next_line()?;
    let value = line.value_under(key)?;
    number_on(value, line.number())
}

// The count of routers, which the first line has.
pub fn read_routers(reader: &mut Reader) -> Result<u32, Fault>
    ensures answer { result ≡ next_number routers (stands reader.old) }
    ensures text { lent reader.new ≡ lent reader.old }
    ensures reader { stands reader.new ≡ onward (stands reader.old) }
{
    read_number_under(reader, Key::Routers)
}

// The name of the cost rule, which the second line has: a part of the text.
pub fn read_rule<'a>(reader: &mut Reader<'a>) -> Result<&'a [u8], Fault>
    ensures answer { texts result ≡ next_value rule (stands reader.old) }
    ensures parts { TextPart (lent reader.old) ((stands reader.old).place + 5) result }
    ensures text { lent reader.new ≡ lent reader.old }
    ensures reader { stands reader.new ≡ onward (stands reader.old) }
{
    reader.next_line()?.value_under(Key::Rule)
}

// What belongs to a direction behind its `from`.
fn read_rest(reader: &mut Reader, from: u32) -> Result<Direction, Fault>
    ensures answer { result ≡ (rest_read from (stands reader.old)).answer }
    ensures text { lent reader.new ≡ lent reader.old }
    ensures reader { stands reader.new ≡ (rest_read from (stands reader.old)).standing }
{
    let to = read_number_under(reader, Key::To)?;
    let line = reader.next_number();
    let number = read_number_under(reader, Key::Weight)?;
    Ok(Direction {
        from,
        to,
        number,
        line,
    })
}

// The end of the file: `links`, with nothing behind it.
fn read_end(reader: &Reader, value: &[u8], line: usize) -> Result<Option<Direction>, Fault>
    ensures { result ≡ ending value.now line (stands reader.now) }
{
    if !same(value, b"links") {
        return Err(bad_line(line));
    }
    if !reader.is_done() {
        return Err(bad_line(reader.next_number()));
    }
    Ok(None)
}

// The next direction, or none at the end of the file.
pub fn next_direction(reader: &mut Reader) -> Result<Option<Direction>, Fault>
    ensures answer { result ≡ (direction_read (stands reader.old)).answer }
    ensures text { lent reader.new ≡ lent reader.old }
    ensures reader { stands reader.new ≡ (direction_read (stands reader.old)).standing }
{
    match reader.next_line()? {
        Line::From { value, line, .. } => {
            let from = number_on(value, line)?;
            let direction = read_rest(reader, from)?;
            Ok(Some(direction))
        }
        Line::End { value, line, .. } => read_end(reader, value, line),
        other => Err(bad_line(other.number())),
    }
}
