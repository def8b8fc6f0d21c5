// Whether a part has the form of a book, and whether there is one in a lent table: yes exactly where it has. Any words are safe.
#![tactic(auto)]

ghost use Rattle.form.specs.Form.{FormStands};
ghost use Rattle.check_trees.specs.Deciding.{Decides};
ghost use Rattle.promises.specs.Promises.{Checks};

// The free slots, then the tree of offers with its envelopes, then the order over the slots that this left in the scratch array, then the memory and the
// numbers over those that the order left.
fn form_stands(part: &[i64]) -> bool
    ensures { Decides result (FormStands part.now) }
{
    if table::capacity(part) < 1 {
        return false;
    }
    let n = table::number_at(part, table::LIVE_COUNT, table::MOST_SLOTS);
    if !check_numbers::free_slots(part, n) {
        return false;
    }
    let mut scratch = [0; check_trees::SCRATCH];
    let Some(leaves) = check_offers::offers(part, &mut scratch) else {
        return false;
    };
    if !check_order::order(part, &mut scratch, leaves, n) {
        return false;
    }
    if !check_memory::memory(part, &scratch, n as usize) {
        return false;
    }
    check_numbers::numbers(part, &mut scratch, n as usize)
}

// Whether the words from `start` on have the form of a book, every envelope the lower envelope of the offers below it, and a memory that can be undone.
pub fn check(table: &[i64], start: usize) -> bool
    ensures { Checks start table.now result }
{
    if promises::no_book(table, start) {
        return false;
    }
    form_stands(&table[start..])
}
