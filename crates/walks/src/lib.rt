// One walk of a search: its node, a stack of those pushed, and what a step does with them. Every function takes any words.
// Left is false, right is true; toward is the way to the other envelope, away the way to the outer end.
#![tactic(auto)]

ghost use Rattle.std.specs.Prelude.{◌≡◌};
ghost use Rattle.walks.specs.CodeMoves.{top_in, point_word};
ghost use Rattle.walks.specs.Actions.{Retreats, Advances, Pops, Acts, sided};

use table::Part;

// The most nodes on a stack: a walk pushes at most one for each level of its tree.
pub const STACK: usize = 24;

// What a walk does in a step.
#[derive(Drop)]
pub enum Action {
    Stay,
    Retreat,
    Advance,
    Pop,
}

// What u and v do in a step.
#[derive(Drop)]
pub struct Move {
    pub u: Action,
    pub v: Action,
}

// Where a walk stands: its node, and how many nodes it pushed.
#[derive(Drop)]
pub struct Stand {
    pub at: u32,
    pub depth: usize,
}

// The node pushed last, and 0 where there is none. Most steps go without it, so that it is read where it is asked for.
pub fn top(stack: &[u32; STACK], depth: usize) -> u32
    ensures { result ≡ top_in stack.now depth }
{
    if depth < 1 {
        return 0;
    }
    if STACK < depth {
        return 0;
    }
    stack[depth - 1]
}

// The slot that keeps the walk's point: an inner node's own, of a leaf that of the node pushed last.
pub fn point(at: u32, stack: &[u32; STACK], depth: usize) -> u32
    ensures { result ≡ point_word at (top_in stack.now depth) }
{
    if at <= table::MOST_SLOTS {
        return table::inner_slot(top(stack, depth));
    }
    at - table::MOST_SLOTS
}

// An inner node goes away; a leaf stays.
fn retreat(part: &Part<'_>, side: bool, at: u32) -> u32
    ensures { Retreats part.now side at result }
{
    if at <= table::MOST_SLOTS {
        return at;
    }
    part.child(table::PIECES, side, at)
}

// An inner node is pushed and goes toward; a leaf stays.
fn advance(part: &Part<'_>, side: bool, at: u32, depth: usize) -> Stand
    ensures { Advances part.now side at depth result }
{
    if at <= table::MOST_SLOTS {
        return Stand { at, depth };
    }
    if STACK <= depth {
        return Stand { at, depth };
    }
    Stand {
        at: part.child(table::PIECES, !side, at),
        depth: depth + 1,
    }
}

// The node pushed last is popped, and the walk goes to its child on the away side.
fn pop(part: &Part<'_>, side: bool, depth: usize, top: u32) -> Stand
    ensures { Pops part.now side depth top result }
{
    if depth < 1 {
        return Stand { at: top, depth };
    }
    Stand {
        at: part.child(table::PIECES, side, top),
        depth: depth - 1,
    }
}

// Where an action leads a walk. Inlined, so that a step makes no call for it.
#[inline(always)]
pub fn act(
    part: &Part<'_>,
    side: bool,
    action: Action,
    at: u32,
    stack: &[u32; STACK],
    depth: usize,
) -> Stand
    ensures { Acts part.now side action at depth (top_in stack.now depth) result }
{
    match action {
        Action::Stay => Stand { at, depth },
        Action::Retreat => Stand {
            at: retreat(part, side, at),
            depth,
        },
        Action::Advance => advance(part, side, at, depth),
        Action::Pop => pop(part, side, depth, top(stack, depth)),
    }
}

// Two actions, the first of the given side.
pub fn pair(side: bool, a: Action, b: Action) -> Move
    ensures { result ≡ sided side a b }
{
    if side {
        return Move { u: b, v: a };
    }
    Move { u: a, v: b }
}
