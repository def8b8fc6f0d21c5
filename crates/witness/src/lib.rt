// A witness that histories exist: an opening and seven calls on a table of this function's own. Nothing is asked of a caller, and the contract
// speaks of no argument: that there is such a history is thereby a theorem. The theorem has the answers too, so they are let go here.
#![tactic(auto)]

ghost use Rattle.witness.specs.Witness.{Witness};

pub fn seven_calls()
    ensures { Witness }
{
    let mut table = [0i64; 1_280];
    let mut out = [0i64; 6];
    let _ = book::open(&mut table, 0, 3);
    let _ = book::post(&mut table, 0, 1, 3, 0);
    let _ = book::post(&mut table, 0, 2, 1, 10);
    let _ = book::query(&table, 0, 5);
    let _ = book::listing(&table, 0, &mut out);
    let _ = book::withdraw(&mut table, 0, 1);
    let _ = book::query(&table, 0, 5);
    let _ = book::take_back(&mut table, 0);
}
