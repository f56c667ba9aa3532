// How links are read: the number that the table shows of each pair, through its layers. Settling reads them by the rule, and knows nothing of tables.
ghost use Rattle.std.specs.Prelude.{◌≡◌};
ghost use Rattle.tables.specs.Meaning.{means};
ghost use Rattle.area.specs.Networks.{number_shown, numbers_shown};

use tables::LinkTable;

// The number that a table shows of a pair, or 0.
fn shown_number<T: LinkTable>(table: &T, from: usize, to: usize) -> u32
    ensures { result ≡ number_shown (means T.LinkTable table.now) from to }
{
    table.number(from, to).unwrap_or(0)
}

// The numbers of all pairs, that from one router to another at place from × count + to.
pub(crate) fn read_links<T: LinkTable>(table: &T) -> [u32; 1024]
    ensures { result ≡ numbers_shown (means T.LinkTable table.now) }
{
    let count = table.count();
    let mut numbers = [0; 1024];
    for (place, number) in numbers[..count * count].iter_mut().enumerate() {
        *number = shown_number(table, place / count, place % count);
    }
    numbers
}
