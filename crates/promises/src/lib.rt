// What the calls on a lent table answer, and whether there is a book at a start.
#![tactic(auto)]

ghost use Rattle.std.specs.Prelude.{◌≡◌, length};
ghost use Rattle.plain.specs.Book.{no_book_at};
ghost use Rattle.table.specs.Fields.{capacity_word};
ghost use Rattle.table.specs.Words.{word};
ghost use Rattle.promises.specs.Promises.{part_of};

pub use causes::Declined;

// What a post, a withdrawal or a take-back answers: the live count after it, the searches, their steps in all and the sum of their trees' heights.
#[derive(Clone, Copy)]
pub struct Update {
    pub live: i64,
    pub k: i64,
    pub s: i64,
    pub h: i64,
}

// What a query answers: of the offers at the least price the number of the one with the lowest rate, that price, the number of the one with the
// highest rate, and the depth of the first one's leaf in the root's piece tree.
#[derive(Clone, Copy)]
pub struct Found {
    pub number: i64,
    pub price: i64,
    pub second: i64,
    pub probes: i64,
}

// There is no book at `start`: it lies beyond the table, or the words there tell no capacity that they have room for.
pub fn no_book(table: &[i64], start: usize) -> bool
    ensures { result ≡ no_book_at (length table.now) start (word (part_of table.now start) capacity_word) }
{
    table.len() < start || table::capacity(&table[start..]) < 1
}
