// What declines a post or a withdrawal whose values are in range: a search for the number, and the live count. Nothing is written.
#![tactic(auto)]

ghost use Rattle.table.specs.Fields.{most_nodes, number_field, number_tree, numbers_root_word};
ghost use Rattle.table.specs.Words.{word, up_to};
ghost use Rattle.index.specs.Index.{FoundKey};
ghost use Rattle.declining.specs.PartCauses.{PostCause};

use causes::Declined;

// The slot of the live offer with that number, or 0.
pub fn live_slot(part: &[i64], number: i64) -> u32
    ensures { FoundKey number_tree number_field number (up_to most_nodes (word part.now numbers_root_word)) part.now result }
{
    let root = table::number_at(part, table::NUMBERS_ROOT, table::MOST_NODES);
    descents::find(part, table::NUMBERS, table::NUMBER, number, root)
}

// Why a post in range is declined, where it is.
pub fn post_cause(part: &[i64], number: i64) -> Result<(), Declined>
    ensures { PostCause number part.now result }
{
    if 0 < live_slot(part, number) {
        return Err(Declined::NumberLive);
    }
    let n = table::number_at(part, table::LIVE_COUNT, table::MOST_NODES);
    if table::capacity(part) <= n {
        return Err(Declined::Full);
    }
    Ok(())
}
