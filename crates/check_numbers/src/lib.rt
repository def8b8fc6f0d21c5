// The free slots and the tree of numbers, as parts of the check of a book's part. Any words are safe: every loop is bounded.
#![tactic(auto)]

ghost use Rattle.std.specs.Prelude.{◌≡◌, ◌≤◌};
ghost use Rattle.form.specs.Form.{Freely};
ghost use Rattle.check_numbers.specs.Tallies.{Tallies};
ghost use Rattle.check_trees.specs.Scratch.{scratch_length, second_half};
ghost use Rattle.check_trees.specs.Deciding.{Decides};
ghost use Rattle.check_numbers.specs.FreeChains.{IsFree, Chained};
ghost use Rattle.check_numbers.specs.Seeking.{Seeks, SeeksAll};
ghost use Rattle.check_numbers.specs.NumberTrees.{Trees};

// Slot `s` is one of the part's, and has no offer.
fn is_free(part: &[i64], s: u32) -> bool
    ensures { Decides result (IsFree part.now s) }
{
    1 <= s && s <= table::capacity(part) && table::is_equal(part, table::NUMBER, s, 0)
}

// From `first` on, `count` free slots follow each other, and then 0. Each link is compared with its word, since words outside their range are
// read as 0 too.
fn chained(part: &[i64], first: u32, count: u32) -> bool
    ensures { Decides result (Chained part.now first count) }
{
    let mut s = first;
    for _ in 0..count {
        if !is_free(part, s) {
            return false;
        }
        let next = table::link(part, table::NEXT_FREE, s);
        if !check_trees::slot_tells(part, table::NEXT_FREE, s, next) {
            return false;
        }
        s = next;
    }
    s == 0
}

// The slots beside `n` live ones are free, in a chain from word 5 on.
pub fn free_slots(part: &[i64], n: u32) -> bool
    ensures { Decides result (Freely part.now n) }
{
    let c = table::capacity(part);
    if c < n {
        return false;
    }
    let first = table::number_at(part, table::FIRST_FREE, table::MOST_NODES);
    if !check_trees::tells(part, table::FIRST_FREE, first) {
        return false;
    }
    chained(part, first, c - n)
}

// The tree of numbers at node `root` has the item in slot `s`: the search for its number ends there.
fn sought(part: &[i64], root: u32, s: u32) -> bool
    ensures { Seeks part.now root s result }
{
    descents::find(
        part,
        table::NUMBERS,
        table::NUMBER,
        table::get(part, table::NUMBER, s),
        root,
    ) == s
}

// .. and so for the slot at each place up to `n`.
fn all_sought(part: &[i64], root: u32, scratch: &[u32; check_trees::SCRATCH], n: usize) -> bool
    requires { n ≤ scratch_length }
    ensures { SeeksAll part.now root scratch.now n result }
{
    scratch[..n].iter().all(|slot| sought(part, root, *slot))
}

// Node `root` of the numbers is the root of a balanced tree, by falling number, of the items in the slots at places 0 up to `n`. As many
// leaves as items, and every item among them, leave no room for another leaf. Entries from 4,096 on are written.
fn number_tree(part: &[i64], root: u32, scratch: &mut [u32; check_trees::SCRATCH], n: usize) -> bool
    requires { n ≤ second_half }
    ensures { Trees part.now root scratch.old scratch.new n result }
{
    let Some(f) = check_trees::fill(
        part,
        table::NUMBERS,
        root,
        scratch,
        check_trees::SECOND_HALF,
        table::MOST_LEVELS,
    ) else {
        return false;
    };
    let next = f.next;
    if next != check_trees::SECOND_HALF + n {
        return false;
    }
    if !check_trees::falling(part, table::NUMBER, scratch, check_trees::SECOND_HALF, next) {
        return false;
    }
    all_sought(part, root, scratch, n)
}

// The live items stand in the slots at places 0 up to `n`, and the tree of their numbers hangs from word 4.
pub fn numbers(part: &[i64], scratch: &mut [u32; check_trees::SCRATCH], n: usize) -> bool
    requires { n ≤ second_half }
    ensures { Tallies part.now scratch.old scratch.new n result }
{
    let root = table::number_at(part, table::NUMBERS_ROOT, table::MOST_NODES);
    if !check_trees::tells(part, table::NUMBERS_ROOT, root) {
        return false;
    }
    if root == 0 {
        return n == 0;
    }
    number_tree(part, root, scratch, n)
}
